ghost use Rattle.std.specs.Prelude.{◌≡◌, ◌+◌, ◌*◌, ◌≤◌, length, vec_len};
ghost use Rattle.bounds.specs.Interference.{interference, taken};
ghost use Rattle.bounds.specs.Least.{longest};
ghost use Rattle.std.proofs.Common.{arith};
ghost use Rattle.bounds.specs.Takings.{interference-rises};

use crate::search::{LONGEST_SPAN, Need};
use crate::term::Term;

// A part's need as a sum: what it takes once, and what the tasks before it take in each of their periods.
#[derive(Drop)]
pub struct Demand {
    pub base: u64,
    pub terms: Vec<Term>,
    ghost modest: { base ≤ 100 * longest },
    ghost few: { vec_len terms ≤ 64 },
}

impl Need for Demand {
    ghost need = { λ s t. s.base + interference s.terms.items t };

    ghost rises = { λ part a b h. omega (arith, interference-rises part.terms.items a b h) };

    fn at(&self, t: u64) -> u64 {
        self.base + taken_by_all(&self.terms, t.min(LONGEST_SPAN))
    }
}

// The sum cannot pass a u64: each of the few terms is at most twice the longest span.
fn taken_by_all(terms: &[Term], t: u64) -> u64
    requires few { length terms.now ≤ 64 }
    requires counted { t ≤ longest }
    ensures value { result ≡ interference terms.now t }
    ensures bound { result ≤ 128 * longest }
{
    terms.iter().map(|term| term.taken(t)).sum()
}

impl Term {
    // What the task takes within t ticks: its length for each period that begins in them.
    fn taken(&self, t: u64) -> u64
        requires { t ≤ longest }
        ensures value { result ≡ taken self.now t }
        ensures bound { result ≤ 2 * longest }
    {
        t.div_ceil(self.period) * self.length
    }
}
