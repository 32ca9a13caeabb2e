ghost use Rattle.std.specs.Prelude.{◌≡◌, ℕ, ◌+◌, ◌↔◌, List, [], take, drop, IsTrue};
ghost use Rattle.planfile.specs.Words.{four};
ghost use Rattle.trial_parts.specs.Reading.{Reads};

use std::marker::Model;

// The bytes of an input that are still to be read, from the front on.
#[derive(Drop)]
pub struct TrialInput<'a> {
    rest: &'a [u8],
}

impl<'a> Model for TrialInput<'a> {
    ghost Value = { List ℕ };

    ghost view = { λ input. input.rest.now };
}

impl<'a> TrialInput<'a> {
    // The whole input.
    pub fn new(bytes: &'a [u8]) -> Self
        ensures { result ≡ bytes.now }
    {
        TrialInput { rest: bytes }
    }

    // A second reader of the bytes that are still to be read.
    pub fn lookahead(&self) -> Self
        ensures { result ≡ self.now }
    {
        TrialInput { rest: self.rest }
    }

    // Whether all was read.
    pub fn is_empty(&self) -> bool
        ensures { IsTrue result ↔ (self.now ≡ []) }
    {
        self.rest.is_empty()
    }

    // The next `n` bytes. Where fewer are left, all of them stay to be read.
    pub fn bytes(&mut self, n: usize) -> Option<&'a [u8]>
        ensures { Reads n self.old self.new result (λ s. s.now ≡ take n self.old) }
    {
        let (bytes, rest) = self.rest.split_at_checked(n)?;
        self.rest = rest;
        Some(bytes)
    }

    // The number in the next 4 bytes, the low byte first. Where fewer are left, all of them stay to be read.
    pub fn number(&mut self) -> Option<u32>
        ensures { Reads 4 self.old self.new result (λ n. n ≡ four self.old 0) }
    {
        let (word, rest) = self.rest.split_first_chunk()?;
        self.rest = rest;
        Some(u32::from_le_bytes(*word))
    }

    // The next plan file: its size as a number, then its bytes. Where it is not whole, all bytes stay to be read.
    pub fn file(&mut self) -> Option<&'a [u8]>
        ensures { Reads (4 + four self.old 0) self.old self.new result (λ s. s.now ≡ take (four self.old 0) (drop 4 self.old)) }
    {
        let mut ahead = self.lookahead();
        let size = ahead.number()?;
        let file = ahead.bytes(size as usize)?;
        *self = ahead;
        Some(file)
    }
}
