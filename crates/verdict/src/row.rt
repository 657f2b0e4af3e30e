// A row of numbers, one behind the other, in as many places as any file needs.
ghost use Rattle.std.specs.Prelude.{◌≡◌, ℕ, ◌≤◌, ◌<◌, List, [], ◌∷◌, ◌++◌, length, take};
ghost use Rattle.verdict.specs.Inner.Row.{Lowered};

use std::marker::Model;

#[derive(Drop)]
pub struct Row<const N: usize> {
    entries: [u16; N],
    size: usize,
}

impl<const N: usize> Model for Row<N> {
    ghost Value = { List ℕ };

    ghost view = { λ row. take row.size row.entries };

    ghost invariant = { λ row. row.size ≤ N };
}

impl<const N: usize> Row<N> {
    pub fn new() -> Self
        ensures { result ≡ [] }
    {
        Row {
            entries: [0; N],
            size: 0,
        }
    }

    pub fn push(&mut self, entry: u16)
        requires { length self.old < N }
        ensures { self.new ≡ self.old ++ entry ∷ [] }
    {
        self.entries[self.size] = entry;
        self.size += 1;
    }

    pub fn entries(&self) -> &[u16]
        ensures { result.now ≡ self.now }
    {
        &self.entries[..self.size]
    }

    // An entry that is more than a limit becomes the limit; false where the row has no such place.
    pub fn lower(&mut self, place: usize, limit: u16) -> bool
        ensures { Lowered self.old place limit self.new result }
    {
        if place >= self.size {
            return false;
        }
        self.entries[place] = limit.min(self.entries[place]);
        true
    }
}
