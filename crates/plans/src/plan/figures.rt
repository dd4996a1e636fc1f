ghost use Rattle.std.specs.Prelude.{◌≡◌, ◌*◌, ◌≤◌, [], ◌∷◌, ◌++◌, length, drop, All};
ghost use Rattle.analysis.specs.Parts.{total};
ghost use Rattle.weights.specs.Weights.{bounds_of};
ghost use Rattle.plans.specs.Figures.{figures, filled, room_for};
ghost use Rattle.plans.specs.Plans.{planned};

use crate::plan::Plan;
use crate::row::ShortRow;
use analysis::Bounds;
use weights::Weight;

// The three bounds of a task, and their sum.
fn figures_of(bounds: Bounds) -> [u32; 4]
    requires { total bounds ≤ 10000000 }
    ensures { result ≡ figures (bounds ∷ []) }
{
    // At most 10,000,000, so the cast loses nothing.
    let sum = bounds.total() as u32;
    [bounds.before, bounds.critical, bounds.after, sum]
}

// Writes the figures of each task to the front of the row. By places, since of the slices that `chunks_mut` lends a proof
// knows the length and no element.
fn write_figures(weights: &[Weight], row: &mut [u32])
    requires room { 4 * length weights.now ≤ length row.old }
    requires small { All (λ w. total w.bounds ≤ 10000000) weights.now }
    ensures { row.new ≡ figures (bounds_of weights.now) ++ drop (4 * length weights.now) row.old }
{
    for (i, weight) in weights.iter().enumerate() {
        row[4 * i..4 * i + 4].copy_from_slice(&figures_of(weight.bounds));
    }
}

impl Plan {
    // Writes four numbers for each task, by rank, to the front of the row: its three bounds and their sum.
    pub fn bounds(&self, row: &mut [u32]) -> Result<(), ShortRow>
        ensures answer { result ≡ room_for (planned self.now).bounds row.old }
        ensures row { row.new ≡ filled (planned self.now).bounds row.old }
    {
        if row.len() / 4 < self.weights.len() {
            return Err(ShortRow);
        }
        write_figures(&self.weights, row);
        Ok(())
    }
}
