ghost use Rattle.std.specs.Prelude.{◌≡◌};
ghost use Rattle.trials.specs.declared.fault.TrialFault.TheVariants.{Weigh};

use analysis::WeighFault;

// Why a trial has no answer. Faults are taken up by hand, as everywhere.
#[derive(Clone, Copy, Debug)]
pub enum TrialFault {
    // There is no task of that number.
    NoTask,
    // Why weighing refuses the seating.
    Weigh(WeighFault),
}

impl From<WeighFault> for TrialFault {
    ghost from_gives = { λ e r. r ≡ Weigh e };

    fn from(fault: WeighFault) -> TrialFault {
        TrialFault::Weigh(fault)
    }
}
