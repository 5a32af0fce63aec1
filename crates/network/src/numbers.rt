// Numbers as the sheets hold them: two bytes each, the low byte first.
ghost use Rattle.std.specs.Prelude.{◌≡◌, ◌+◌};
ghost use Rattle.network.specs.Words.{word_read, past};

// Reads numbers from the caller's bytes, one after another from a position on.
#[derive(Drop)]
pub struct Reader<'a> {
    bytes: &'a [u8],
    // a number, and not what is left of the bytes, since `next` promises where it stands
    at: usize,
}

impl<'a> Reader<'a> {
    pub fn new(bytes: &'a [u8], at: usize) -> Reader<'a>
        ensures bytes { result.bytes.now ≡ bytes.now }
        ensures at { result.at ≡ at }
    {
        Reader { bytes, at }
    }
}

impl Iterator for Reader<'_> {
    type Item = u16;

    ghost use Rattle.std.specs.Iterator.{YieldsFirst, item_count};
    ghost use Rattle.network.specs.Reading.{numbers_left};

    ghost next_gives = { YieldsFirst numbers_left };

    ghost remaining = { item_count numbers_left };

    // The number at the position, and the position moves past it; nothing, and it stays, where two bytes are not left.
    fn next(&mut self) -> Option<u16>
        ensures value { result ≡ word_read self.old.bytes.now self.old.at }
        ensures position { self.new.at ≡ past self.old.bytes.now self.old.at }
        ensures same { self.new.bytes.now ≡ self.old.bytes.now }
    {
        // where the last number can stand: one test for both bytes
        let last = self.bytes.len().checked_sub(2)?;
        if self.at > last {
            return None;
        }
        let (low, high) = (self.bytes[self.at], self.bytes[self.at + 1]);
        self.at += 2;
        Some(u16::from_le_bytes([low, high]))
    }
}
