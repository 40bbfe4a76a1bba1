// The public reader (bit_reader.rs): it holds the data, and the offset of the next bit. No function asks anything of its caller. An enum
// cannot hold a reference, so `new` cannot refuse data that is too long for the core; `consume` answers so.
#![tactic(auto)]

pub mod cursor;

ghost use Rattle.std.specs.Prelude.{◌≡◌, ◌*◌, leb, length};
ghost use Rattle.rules.specs.Bits.{peek};
ghost use Rattle.reader.specs.Read.{aligned_at};
ghost use Rattle.reader.specs.Reader.{reader_at, left, taking, word_after};

use crate::cursor::TakenBits;

#[derive(Drop)]
pub struct BitReader<'a> {
    src: &'a [u8],
    at: usize,
}

impl<'a> BitReader<'a> {
    // At the first bit.
    pub fn new(src: &'a [u8]) -> BitReader<'a>
        ensures { result ≡ reader_at src.entry 0 }
    {
        BitReader { src, at: 0 }
    }

    // The next 32 bits, zeros past the data.
    pub fn peek_u32(&self) -> u32
        ensures { result ≡ peek 32 (left self.now) }
    {
        cursor::peek(self.src, self.at)
    }

    // `n` bits on, or to the end of the data where there are fewer.
    pub fn consume(&mut self, n: usize) -> TakenBits
        ensures { (self.new ≡ reader_at self.old.src (taking self.old n).at) × (result ≡ (taking self.old n).answer) }
    {
        let went = cursor::take(self.src, self.at, n);
        self.at = went.at;
        went.answer
    }

    // To the next byte.
    pub fn align(&mut self)
        ensures { self.new ≡ reader_at self.old.src (aligned_at self.old.at) }
    {
        self.at = cursor::align(self.at);
    }

    // Whether no bit is left.
    pub fn at_end(&self) -> bool
        ensures { result ≡ leb (8 * length self.now.src.now) self.now.at }
    {
        cursor::at_end(self.src, self.at)
    }
}

// The 32 bits from a byte on, and whether the bits before it were there.
#[derive(Clone, Copy)]
pub struct Word {
    pub bits: u32,
    pub answer: TakenBits,
}

// The word from the first byte behind `n` bits. Its parameters are plain, so that who calls it needs no proof by hand.
pub fn word_after(src: &[u8], n: usize) -> Word
    ensures { result ≡ word_after src.now n }
{
    let mut reader = BitReader::new(src);
    let answer = reader.consume(n);
    reader.align();
    Word {
        bits: reader.peek_u32(),
        answer,
    }
}
