// A buffer that is filled from its front.

ghost use Rattle.std.specs.Prelude.{◌+◌, ◌≤◌, length};
ghost use Rattle.writer.specs.Filled.{Filled};

// The buffer, and how many of its bytes are filled.
#[derive(Drop)]
pub(crate) struct Filling<'a> {
    pub(crate) buffer: &'a mut [u8],
    pub(crate) filled: usize,
}

impl Filling<'_> {
    // Puts the bytes behind what is filled.
    pub(crate) fn put(&mut self, bytes: &[u8])
        requires { self.old.filled + length bytes.now ≤ length self.old.buffer.now }
        ensures { Filled self.old bytes.now self.new }
    {
        let end = self.filled + bytes.len();
        self.buffer[self.filled..end].copy_from_slice(bytes);
        self.filled = end;
    }
}
