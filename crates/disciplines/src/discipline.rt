ghost use Rattle.std.specs.Prelude.{◌≡◌, ◌≤◌, true};
ghost use Rattle.disciplines.specs.declared.section.Section.{Section};
ghost use Rattle.disciplines.specs.Rules.{Answers, Relation};

use crate::section::{OpenSection, Section};

// Which section may hold a processor against which.
pub trait Holding {
    // Whether the first section may hold against the second.
    ghost may: { Self → Relation };

    // Whether a section may hold against another.
    fn hold(&self, holder: Section, against: Section) -> bool
        ensures { result ≡ may self.now holder against };

    // A yes against one section is a yes against every section of no better rank.
    ghost first: { (s : Self) (x y z : Section) → may s x y ≡ true → y.rank ≤ z.rank → may s x z ≡ true };

    // A section may hold against any of its resource, where both have one ceiling and neither ranks better than it.
    ghost second: { (s : Self) (x y : Section) → x.resource ≡ y.resource → x.ceiling ≡ y.ceiling → x.ceiling ≤ x.rank → x.ceiling ≤ y.rank → may s x y ≡ true };
}

// Which section may hold a processor against which, and which of the open sections is served.
pub trait Discipline: Holding {
    // Which of the open sections is served: its place in the row; none exactly if the row is empty.
    fn name(&mut self, row: &[OpenSection]) -> Option<usize>
        ensures rules { Answers (Self.may self.old) row.now result }
        ensures fixed { Self.may self.new ≡ Self.may self.old };
}
