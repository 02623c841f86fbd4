// Bytes put into a lent buffer from a place on, as many as it has room for; what lies beyond them is kept.
#![tactic(auto)]

ghost use Rattle.std.specs.Prelude.{[], ◌∷◌, replicate};
ghost use Rattle.buffer.specs.Buffer.{Wrote};

// A lent buffer and the place in it where the next piece goes.
#[derive(Drop)]
pub struct Writer<'a> {
    pub bytes: &'a mut [u8],
    pub at: usize,
}

impl<'a> Writer<'a> {
    // A piece; a place past the end leaves the buffer.
    #[tactic(auto, using(crate::proofs::Copied::past, crate::proofs::Copied::copied))]
    pub fn put(&mut self, piece: &[u8])
        ensures { Wrote self.old piece.now self.new }
    {
        let at = self.at;
        if self.bytes.len() < at {
            return;
        }
        let n = piece.len().min(self.bytes.len() - at);
        self.bytes[at..at + n].copy_from_slice(&piece[..n]);
        self.at = at + n;
    }

    // One byte. By itself: a piece of one would be filled by the C library's memset, whose masked store may lower the processor's clock
    // (docs/PERFORMANCE.md).
    #[tactic(auto, using(crate::proofs::Copied::past, crate::proofs::Copied::placed))]
    pub fn put_byte(&mut self, byte: u8)
        ensures { Wrote self.old (byte ∷ []) self.new }
    {
        if self.at < self.bytes.len() {
            self.bytes[self.at] = byte;
            self.at += 1;
        }
    }

    // So many times a byte. The body of `put` but for the fill: a closure that writes the part would have to be proved to write it
    // whole, and both would be longer.
    #[tactic(auto, using(crate::proofs::Copied::past, crate::proofs::Copied::filled))]
    pub fn put_run(&mut self, byte: u8, count: usize)
        ensures { Wrote self.old (replicate count byte) self.new }
    {
        let at = self.at;
        if self.bytes.len() < at {
            return;
        }
        let end = at + count.min(self.bytes.len() - at);
        self.bytes[at..end].fill(byte);
        self.at = end;
    }
}
