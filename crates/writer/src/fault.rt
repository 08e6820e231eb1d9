// Why nothing was written.

// The buffer is too short: it needs as many bytes as this.
#[derive(Clone, Copy, PartialEq, Eq, Debug)]
pub struct TooShort {
    pub needed: usize,
}
