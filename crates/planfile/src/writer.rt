// Writes into a buffer, part after part.
ghost use Rattle.std.specs.Prelude.{◌≡◌, ◌+◌, ◌≤◌, length};
ghost use Rattle.planfile.specs.Words.{over};

// A buffer, and where the next part goes. The place is kept here, since the contract of `chunks_exact_mut` doesn't say
// what the slice ends as.
#[derive(Drop)]
pub(crate) struct Writer<'a> {
    buffer: &'a mut [u8],
    at: usize,
}

impl<'a> Writer<'a> {
    // A writer whose first part goes to the front of the buffer.
    pub(crate) fn new(buffer: &'a mut [u8]) -> Writer<'a>
        ensures bytes { result.buffer.now ≡ buffer.old }
        ensures same_reference { result.buffer.ghost_name ≡ buffer.entry.ghost_name }
        ensures front { result.at ≡ 0 }
    {
        Writer { buffer, at: 0 }
    }

    // Writes one part, and changes no other byte. The next part goes after it.
    pub(crate) fn put<const N: usize>(&mut self, bytes: [u8; N])
        requires { self.old.at + N ≤ length self.old.buffer.now }
        ensures bytes { self.new.buffer.now ≡ over self.old.buffer.now self.old.at bytes.entry }
        ensures after { self.new.at ≡ self.old.at + N }
        ensures same_reference { self.new.buffer.ghost_name ≡ self.old.buffer.ghost_name }
    {
        self.buffer[self.at..self.at + N].copy_from_slice(&bytes);
        self.at += N;
    }
}
