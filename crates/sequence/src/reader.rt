// Reading bits, of an OBU in the payload that carries it.
#![tactic(auto, using(crate::proofs::Loops::bit_reads))]

ghost use Rattle.std.specs.Prelude.{◌<◌};

use crate::place::Place;

// A reader, and the bit that it reads next: bit `bit` of the byte at `place`, the highest being 0. A read past the
// payload's end returns 0 and makes the reader cut; a cut reader stays cut.
#[derive(Drop)]
pub(crate) struct BitReader<'a> {
    payload: &'a [u8],
    place: Place,
    bit: u8,
    cut: bool,
    ghost in_byte: { bit < 8 },
}

impl<'a> BitReader<'a> {
    ghost use Rattle.std.specs.Prelude.{◌≡◌, ◌≤◌, ◌^◌};
    ghost use Rattle.lists.specs.Lists.{pick};
    ghost use Rattle.sequence.specs.Bits.{f, when, return};
    ghost use Rattle.sequence.specs.Bits.{flag as bits_flag, skip as bits_skip, uvlc as bits_uvlc};
    ghost use Rattle.sequence.specs.Parts.{Starts, Reads, Falls, CountsZeros};

    // Returns a reader of the OBU behind its first `at` bytes.
    pub(crate) fn new(payload: &'a [u8], at: usize) -> Self
        ensures { Starts payload.now at result }
    {
        BitReader {
            payload,
            place: Place::behind(payload, at),
            bit: 0,
            cut: false,
        }
    }

    // Returns whether a read has passed the payload's end.
    pub(crate) fn is_cut(&self) -> bool
        ensures { result ≡ self.now.cut }
    {
        self.cut
    }

    // Reads the next bit. Returns 0 past the payload's end, and the reader is then cut.
    fn bit(&mut self) -> u8
        ensures reads { Reads self.old (f 1) result self.new }
        ensures value_bound { result < 2 }
        ensures falls { Falls self.old self.new }
    {
        if self.cut {
            return 0;
        }
        if self.payload.len() <= self.place.byte {
            self.cut = true;
            return 0;
        }
        let value = (self.payload[self.place.byte] >> (7 - self.bit)) % 2;
        if self.bit < 7 {
            self.bit += 1;
            return value;
        }
        self.place = self.place.next(self.payload);
        self.bit = 0;
        value
    }

    // Reads f(n), of at most 8 bits.
    pub(crate) fn number(&mut self, n: u8) -> u8
        requires { n ≤ 8 }
        ensures reads { Reads self.old (f n) result self.new }
        ensures value_bound { result < 2 ^ n }
    {
        let mut value = 0u8;
        for _ in 0..n {
            value = value * 2 + self.bit();
        }
        value
    }

    // Reads f(n) if the test holds. Returns 0 otherwise.
    pub(crate) fn number_if(&mut self, test: bool, n: u8) -> u8
        requires { n ≤ 8 }
        ensures { Reads self.old (pick test (f n) (return 0)) result self.new }
    {
        if test { self.number(n) } else { 0 }
    }

    // Reads f(1) as a test.
    pub(crate) fn flag(&mut self) -> bool
        ensures { Reads self.old bits_flag result self.new }
    {
        self.bit() == 1
    }

    // Reads f(n), whose value is not looked at.
    pub(crate) fn skip(&mut self, n: u8)
        ensures { Reads self.old (bits_skip n) tt self.new }
    {
        for _ in 0..n {
            self.bit();
        }
    }

    // Reads f(n) if the test holds.
    pub(crate) fn skip_if(&mut self, test: bool, n: u8)
        ensures { Reads self.old (when test (bits_skip n)) tt self.new }
    {
        if test {
            self.skip(n);
        }
    }

    // Reads zeros up to a one. Returns their count, or 32 if there are more.
    fn zeros(&mut self) -> u8
        ensures { CountsZeros self.old result self.new }
    {
        let mut count = 0u8;
        // Stays: the loop ends at what it reads, a one or the end; an iterator of bits would be made for it alone.
        while !self.cut {
            if self.bit() == 1 {
                return count;
            }
            count = (count + 1).min(32);
        }
        count
    }

    // Reads uvlc(), whose value is not looked at.
    pub(crate) fn uvlc(&mut self)
        ensures { Reads self.old bits_uvlc tt self.new }
    {
        let zeros = self.zeros();
        if zeros < 32 {
            self.skip(zeros);
        }
    }
}
