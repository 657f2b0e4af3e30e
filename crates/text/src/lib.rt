// Text put into lent bytes from a place on. What finds no room is not written; the place is then behind the last byte written.

#![tactic(auto)]

ghost use Rattle.std.specs.Prelude.{[], ◌∷◌};
ghost use Rattle.text.specs.Text.{decimal};
ghost use Rattle.text.specs.Fill.{piece as piece_text, filled};
ghost use Rattle.text.specs.Put.{Adds};

// Lent bytes, and the place that the next text is put at.
#[derive(Drop)]
pub struct Page<'a> {
    pub out: &'a mut [u8],
    pub at: usize,
}

impl Page<'_> {
    // A pattern, with a value in decimal for each byte that is the value's place.
    pub fn fill(&mut self, pattern: &[u8], values: &[usize])
        ensures { Adds (filled values.now pattern.now) self.old self.new }
    {
        for &byte in pattern {
            self.piece(byte, values);
        }
    }

    fn piece(&mut self, byte: u8, values: &[usize])
        ensures { Adds (piece_text values.now byte) self.old self.new }
    {
        match values.get(usize::from(byte)) {
            Some(&value) => self.number(value),
            None => self.put(byte),
        }
    }

    // A number in decimal. The digits in front of the last come first: at most 20 calls deep.
    pub fn number(&mut self, n: usize)
        ensures { Adds (decimal n) self.old self.new }
    {
        if n > 9 {
            self.number(n / 10);
        }
        self.put(48 + (n % 10) as u8);
    }

    pub fn put(&mut self, byte: u8)
        ensures { Adds (byte ∷ []) self.old self.new }
    {
        if self.at < self.out.len() {
            self.out[self.at] = byte;
            self.at += 1;
        }
    }
}
