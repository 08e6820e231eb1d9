// Numbers brought into ranges.

ghost use Rattle.std.specs.Prelude.{◌≡◌};
ghost use Rattle.running.specs.Values.{bring, plus, minus};

use sheet::sizes::{GREATEST_NUMBER, LEAST_NUMBER};

// The number, or the end of the range that is nearer to it. By cases: `clamp` asks that the ends are in order.
pub(crate) fn bring_into(low: i32, high: i32, v: i32) -> i32
    ensures { result ≡ bring low high v }
{
    if v < low {
        low
    } else if high < v {
        high
    } else {
        v
    }
}

// The sum, brought into the number range.
pub(crate) fn sum_of(a: i32, b: i32) -> i32
    ensures { result ≡ plus a b }
{
    bring_into(LEAST_NUMBER, GREATEST_NUMBER, a.saturating_add(b))
}

// The difference, brought into the number range.
pub(crate) fn difference_of(a: i32, b: i32) -> i32
    ensures { result ≡ minus a b }
{
    bring_into(LEAST_NUMBER, GREATEST_NUMBER, a.saturating_sub(b))
}
