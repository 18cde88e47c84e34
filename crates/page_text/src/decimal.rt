//! The decimal of a double.

ghost use Rattle.std.specs.Prelude.{◌≡◌, ◌<◌, ◌≤◌, ◌^◌, IfSome};
ghost use Rattle.page_text.specs.Doubles.{is_near, nearest, parts_of_gap, shortest};

/// The mantissa of a double at whose other side the doubles are only half as far apart: 2^52.
const BOUNDARY: u64 = 4_503_599_627_370_496;

/// A number with a point, and how many of its digits come after the point.
#[derive(Clone, Copy)]
pub(crate) struct Decimal {
    /// The digits, as a whole number.
    pub(crate) number: u128,
    /// Ten to the power of `places`.
    pub(crate) ten: u128,
    /// How many digits come after the point.
    pub(crate) places: u64,
}

/// The whole number nearest to `ten` times the size.
fn nearest(mantissa: u64, two: u128, ten: u128) -> u128
    requires mantissa { mantissa < 2 ^ 53 }
    requires two { 0 < two }
    requires two_small { two ≤ 2 ^ 120 }
    requires ten { ten ≤ 10 ^ 22 }
    ensures { result ≡ nearest mantissa two ten }
{
    (u128::from(mantissa) * ten + two / 2) / two
}

/// In how many parts the gap to the next double is divided, to say what is near.
fn parts_of_gap(mantissa: u64) -> u128
    ensures value { result ≡ parts_of_gap mantissa }
    ensures small { result ≤ 4 }
{
    if mantissa == BOUNDARY { 4 } else { 2 }
}

/// Whether the decimal is so near to the double that no other double is as near.
fn is_near(mantissa: u64, two: u128, ten: u128) -> bool
    requires mantissa { mantissa < 2 ^ 53 }
    requires two { 0 < two }
    requires two_small { two ≤ 2 ^ 120 }
    requires ten { ten ≤ 10 ^ 22 }
    ensures { result ≡ is_near mantissa two ten }
{
    let exact = u128::from(mantissa) * ten;
    let distance = exact.abs_diff(nearest(mantissa, two, ten) * two);
    distance < ten && parts_of_gap(mantissa) * distance < ten
}

/// The near decimal with the fewest places, of at most 22.
pub(crate) fn shortest(mantissa: u64, two: u128) -> Option<Decimal>
    requires mantissa { mantissa < 2 ^ 53 }
    requires two { 0 < two }
    requires two_small { two ≤ 2 ^ 120 }
    ensures value { result ≡ shortest mantissa two }
    ensures ten { IfSome result (λ d. d.ten ≡ 10 ^ d.places) }
{
    let mut ten: u128 = 1;
    for places in 0..23u64 {
        if is_near(mantissa, two, ten) {
            return Some(Decimal {
                number: nearest(mantissa, two, ten),
                ten,
                places,
            });
        }
        ten *= 10;
    }
    None
}
