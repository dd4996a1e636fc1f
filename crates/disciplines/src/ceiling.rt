ghost use Rattle.std.specs.Prelude.{◌≡◌};
ghost use Rattle.disciplines.specs.Rules.{Answers};
ghost use Rattle.disciplines.specs.Chosen.{chosen};
ghost use Rattle.disciplines.specs.Supplied.{under_ceiling};
ghost use Rattle.std.proofs.Common.{rules};

use crate::discipline::{Discipline, Holding};
use crate::naming::choose;
use crate::section::{OpenSection, Section};

// A section may hold against those whose rank is no better than its ceiling.
#[derive(Clone, Copy, Debug)]
pub struct Ceiling;

impl Holding for Ceiling {
    ghost may = { λ _. under_ceiling };

    ghost first = { Prim.search rules };

    ghost second = { Prim.search rules };

    fn hold(&self, holder: Section, against: Section) -> bool {
        holder.ceiling <= against.rank
    }
}

// A body of its own, since one that the trait provides would promise the trait's clauses alone.
impl Discipline for Ceiling {
    fn name(&mut self, row: &[OpenSection]) -> Option<usize>
        ensures rules { Answers under_ceiling row.now result }
        ensures fixed { self.new ≡ self.old }
        ensures answer { result ≡ chosen under_ceiling row.now }
    {
        choose(self, row)
    }
}
