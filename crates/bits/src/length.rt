// Bit lengths.

ghost use Rattle.std.specs.Prelude.{◌≡◌, ℕ, ◌^◌, ◌<◌, ◌≤◌};
ghost use Rattle.image.specs.Bits.{bit_length};

// The bit length of a number, which is the least number of bits that hold it; that of 0 is 0.
pub fn bit_length(n: u32) -> u32
    ensures value { result ≡ bit_length n }
    ensures holds { n < 2 ^ result }
    ensures least { (w : ℕ) → n < 2 ^ w → result ≤ w }
{
    32 - n.leading_zeros()
}
