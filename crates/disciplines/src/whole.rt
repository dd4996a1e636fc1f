ghost use Rattle.std.specs.Prelude.{◌≡◌};
ghost use Rattle.disciplines.specs.Rules.{Answers};
ghost use Rattle.disciplines.specs.Chosen.{chosen};
ghost use Rattle.disciplines.specs.Supplied.{always};
ghost use Rattle.std.proofs.Common.{rules};

use crate::discipline::{Discipline, Holding};
use crate::naming::choose;
use crate::section::{OpenSection, Section};

// Every section may hold against every section.
#[derive(Clone, Copy, Debug)]
pub struct Whole;

impl Holding for Whole {
    ghost may = { λ _. always };

    ghost first = { Prim.search rules };

    ghost second = { Prim.search rules };

    fn hold(&self, _holder: Section, _against: Section) -> bool {
        true
    }
}

// A body of its own, since one that the trait provides would promise the trait's clauses alone.
impl Discipline for Whole {
    fn name(&mut self, row: &[OpenSection]) -> Option<usize>
        ensures rules { Answers always row.now result }
        ensures fixed { self.new ≡ self.old }
        ensures answer { result ≡ chosen always row.now }
    {
        choose(self, row)
    }
}
