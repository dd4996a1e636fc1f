ghost use Rattle.std.specs.Prelude.{◌≡◌, [], ◌∷◌, ◌++◌, length, is_ok, IfOk, if◌then◌else◌};
ghost use Rattle.analysis.specs.declared.part.PartKind.TheVariants.{Critical};
ghost use Rattle.analysis.specs.Judging.{bound, judged_with};
ghost use Rattle.analysis.specs.Seated.{rows_in, seats_in};
ghost use Rattle.attempts.specs.Placing.{term};

use analysis::{PartKind, Seated};
use disciplines::Discipline;
use fields::Ticks;
use std::alloc::{AllocError, Global};

// The bound of a task's critical part, which does not ask where tasks sit.
pub(crate) fn critical_bound<D: Discipline>(
    heap: Global,
    seated: Seated,
    discipline: &D,
    rank: usize,
) -> Result<Option<Ticks>, AllocError>
    ensures { IfOk result (λ o. o ≡ bound (seats_in seated.entry) (rows_in seated.entry) (term (D.may discipline.now) (rows_in seated.entry) (seats_in seated.entry).resources rank) Critical rank) }
{
    let blocking = seated.blocking_term(discipline, rank);
    seated.part_bound(heap, blocking, PartKind::Critical, rank)
}

// Seats the next task on a processor if its bounds exist and fit there, its critical part having this bound, or none.
// Says whether it did. The resources sit as they do in `seated`, and the tasks that have seats on the processors `homes`.
pub(crate) fn sit(
    heap: Global,
    seated: Seated,
    homes: &mut Vec<u8>,
    critical: Option<Ticks>,
    processor: u8,
) -> Result<bool, AllocError>
    ensures fits { IfOk result (λ b. b ≡ is_ok (judged_with (record { resources = (seats_in seated.entry).resources; tasks = homes.old.items ++ processor ∷ [] }) (rows_in seated.entry) 0 critical (length homes.old.items))) }
    ensures seated { IfOk result (λ b. homes.new.items ≡ (if b then homes.old.items ++ processor ∷ [] else homes.old.items)) }
{
    let rank = homes.len();
    homes.push(processor)?;
    let tried = Seated {
        homes: homes.as_slice(),
        ..seated
    };
    if tried.judge_with(heap, critical, rank)?.is_ok() {
        return Ok(true);
    }
    homes.truncate(rank);
    Ok(false)
}
