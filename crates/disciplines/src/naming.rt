ghost use Rattle.std.specs.Prelude.{◌≡◌};
ghost use Rattle.disciplines.specs.Rules.{Answers};
ghost use Rattle.disciplines.specs.Chosen.{Within, best_in, chosen, holder_of, holds_against};

use crate::discipline::Holding;
use crate::section::{OpenSection, Section};

// The first place of a best-ranked section. Apart from the next, since with the test as a closure the contract would speak
// of what the closure answers.
fn find_best(row: &[OpenSection]) -> Option<usize>
    ensures first { result ≡ best_in row.now }
    ensures within { Within row.now result }
{
    row.iter()
        .enumerate()
        .min_by_key(|(_, open)| open.section.rank)
        .map(|(i, _)| i)
}

// Whether an open section is started and may hold against `against`.
fn holds<H: Holding>(holding: &H, holder: &OpenSection, against: Section) -> bool
    ensures { result ≡ holds_against (H.may holding.now) against holder.now }
{
    holder.started && holding.hold(holder.section, against)
}

// The first place of a best-ranked section among those that are started and may hold against `against`.
fn find_holder<H: Holding>(holding: &H, row: &[OpenSection], against: Section) -> Option<usize>
    ensures { result ≡ holder_of (H.may holding.now) against row.now }
{
    row.iter()
        .enumerate()
        .filter(|(_, open)| holds(holding, open, against))
        .min_by_key(|(_, open)| open.section.rank)
        .map(|(i, _)| i)
}

// The best-ranked section, unless a started one may hold against it; then the best-ranked such holder.
fn find_chosen<H: Holding>(holding: &H, row: &[OpenSection]) -> Option<usize>
    ensures { result ≡ chosen (H.may holding.now) row.now }
{
    let best = find_best(row)?;
    find_holder(holding, row, row[best].section).or(Some(best))
}

// The same place, which keeps the rules of a discipline's answer.
pub(crate) fn choose<H: Holding>(holding: &H, row: &[OpenSection]) -> Option<usize>
    ensures answer { result ≡ chosen (H.may holding.now) row.now }
    ensures rules { Answers (H.may holding.now) row.now result }
{
    find_chosen(holding, row)
}
