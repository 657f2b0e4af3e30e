// A 16-bit number as two bytes, high byte first.
ghost use Rattle.std.specs.Prelude.{◌≡◌, ◌+◌, ◌≤◌, length};
ghost use Rattle.std.proofs.lemmas.List.Edits.{sets};
ghost use Rattle.records.specs.Record.{word, word_at};

pub fn word_at(file: &[u8], at: usize) -> u16
    requires { at + 2 ≤ length file.now }
    ensures { result ≡ word_at file.now at }
{
    u16::from_be_bytes([file[at], file[at + 1]])
}

pub fn put_word(out: &mut [u8], at: usize, value: u16)
    requires { at + 2 ≤ length out.old }
    ensures { out.new ≡ sets out.old at (word value) }
{
    out[at..at + 2].copy_from_slice(&value.to_be_bytes());
}
