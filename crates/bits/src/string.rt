// Bits of a byte string, read and written.

ghost use Rattle.std.specs.Prelude.{◌≡◌, ℕ, ◌+◌, ◌*◌, ◌^◌, ◌<◌, ◌≤◌, cond, length};
ghost use Rattle.image.specs.Bits.{number_of, part, put};

// Whether a bit is set.
fn is_set(bytes: &[u8], at: usize) -> bool
    requires { at < 8 * length bytes.now }
    ensures { cond result 1 0 ≡ part (number_of bytes.now) at 1 }
{
    bytes[at / 8] >> (at % 8) & 1 == 1
}

// Sets or clears a bit, and leaves the others.
fn put_bit(bytes: &mut [u8], at: usize, set: bool)
    requires { at < 8 * length bytes.old }
    ensures { number_of bytes.new ≡ put (number_of bytes.old) at 1 (cond set 1 0) }
{
    let mask = 1 << (at % 8);
    if set {
        bytes[at / 8] |= mask;
    } else {
        bytes[at / 8] &= !mask;
    }
}

// Some bits of a byte string: the place of the first, and how many there are.
#[derive(Clone, Copy)]
pub struct BitField {
    pub at: usize,
    pub bits: u32,
    pub ghost few: { bits ≤ 32 },
    pub ghost ends: { at + bits < 2 ^ 64 },
}

impl BitField {
    // The number in the bits.
    pub fn number(&self, bytes: &[u8]) -> u32
        requires { self.now.at + self.now.bits ≤ 8 * length bytes.now }
        ensures { result ≡ part (number_of bytes.now) self.now.at self.now.bits }
    {
        (0..self.bits)
            .map(|i| u32::from(is_set(bytes, self.at + i as usize)) << i)
            .sum()
    }

    // Puts a number into the bits, and leaves the others.
    pub fn put(&self, bytes: &mut [u8], number: u32)
        requires there { self.now.at + self.now.bits ≤ 8 * length bytes.old }
        requires room { number < 2 ^ self.now.bits }
        ensures { number_of bytes.new ≡ put (number_of bytes.old) self.now.at self.now.bits number }
    {
        // Each step writes to the bytes, so a chain would be a `for_each` with the same body.
        for i in 0..self.bits {
            put_bit(bytes, self.at + i as usize, number >> i & 1 == 1);
        }
    }
}
