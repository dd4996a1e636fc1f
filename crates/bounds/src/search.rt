ghost use Rattle.std.specs.Prelude.{◌≡◌, ℕ, ◌≤◌, min};
ghost use Rattle.bounds.specs.Least.{Exactly, Rises, least, longest};

// The most ticks that are counted. Longer spans and limits count as this one, so that every need fits a u64.
pub const LONGEST_SPAN: u64 = 10_000_000_000;

// The ticks that a part needs within t ticks, with all that goes before it. It never falls as t rises.
pub trait Need {
    ghost need: { Self → ℕ → ℕ };

    fn at(&self, t: u64) -> u64
        ensures { result ≡ need self.now (min t longest) };

    ghost rises: { (part : Self) → Rises (need part) };
}

// The least number of ticks, from 1 to the limit, that is no less than what the part needs within it.
pub fn least_bound<N: Need>(part: &N, limit: u64) -> Option<u64>
    ensures value { result ≡ least (N.need part.now) (min limit longest) }
    ensures exact { Exactly (N.need part.now) (min limit longest) result }
{
    climb(part, limit.min(LONGEST_SPAN))
}

// Goes from t straight to the need at t: since the need never falls, no t between the two meets it.
fn climb<N: Need>(part: &N, limit: u64) -> Option<u64>
    requires { limit ≤ longest }
    ensures value { result ≡ least (N.need part.now) limit }
    ensures exact { Exactly (N.need part.now) limit result }
{
    let mut t = 1;
    while t <= limit {
        let needed = part.at(t);
        if needed <= t {
            return Some(t);
        }
        t = needed;
    }
    None
}
