ghost use Rattle.std.specs.Prelude.{◌≡◌, true, length, vec_len};
ghost use Rattle.tables.specs.Listed.{listed};
ghost use Rattle.analysis.specs.Told.{seats_of};
ghost use Rattle.analysis.specs.Weighing.{keeps};
ghost use Rattle.weights.specs.Weights.{bounds_of, terms_of};
ghost use Rattle.plans.specs.Empty.{empty_or_lawful};

use analysis::Seating;
use tables::Table;
use weights::Weight;

mod figures;
mod parts;
pub(crate) mod weighing;

// A table that is seated in a box, with a blocking term and three bounds for each task. A plan is empty, with no task
// and no processor, or was filled by `weigh`: its seating is lawful, and its bounds meet the inequalities of all parts
// with its own blocking terms and add up to at most the deadlines. The table, the seating and the weights each have a row by
// rank, since each is made, and lent, as a whole.
#[derive(Drop)]
pub struct Plan {
    processors: u8,
    seating: Seating,
    table: Table,
    weights: Vec<Weight>,
    ghost complete: { vec_len weights ≡ length (listed table).tasks },
    ghost lawful: { empty_or_lawful processors seating.syncs (listed table) (seats_of seating) ≡ true },
    ghost kept: { keeps (seats_of seating) (listed table).tasks (terms_of weights.items) (bounds_of weights.items) ≡ true },
}
