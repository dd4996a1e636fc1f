ghost use Rattle.std.specs.Prelude.{◌≡◌, ◌≤◌, length};
ghost use Rattle.fields.specs.Figures.{at_most, digits, figure_of};

// One unit of time: a tick. Lengths and periods are counted in it.
pub type Ticks = u32;

// The longest time that a figure may write.
pub(crate) const LONGEST: Ticks = 10_000_000;

// The number that up to 8 digits write.
fn number(bytes: &[u8]) -> Option<Ticks>
    requires { length bytes.now ≤ 8 }
    ensures { result ≡ digits 0 bytes.now }
{
    bytes.iter().try_fold(0, |n, d| match d {
        b'0'..=b'9' => Some(n * 10 + Ticks::from(*d - b'0')),
        _ => None,
    })
}

// The figure that the bytes write: 1 to 8 digits, and no needless leading zero.
fn figure_of(bytes: &[u8]) -> Option<Ticks>
    ensures { result ≡ figure_of bytes.now }
{
    match bytes {
        [] | [b'0', _, ..] => None,
        _ if bytes.len() > 8 => None,
        _ => number(bytes),
    }
}

// The figure that the bytes write, if it is one from `low` to `high`. Two ends, since a `RangeInclusive` that was used up
// holds nothing.
pub fn within(bytes: &[u8], low: Ticks, high: Ticks) -> Option<Ticks>
    ensures { result ≡ at_most low high (figure_of bytes.now) }
{
    figure_of(bytes).filter(|n| (low..=high).contains(n))
}
