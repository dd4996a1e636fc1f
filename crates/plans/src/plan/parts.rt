ghost use Rattle.std.specs.Prelude.{◌≡◌};
ghost use Rattle.tables.specs.Listed.{listed};
ghost use Rattle.weights.specs.Weights.{bounds_of, terms_of};
ghost use Rattle.plans.specs.Plans.{empty_plan, planned};

use crate::plan::Plan;
use analysis::Seating;
use std::alloc::Global;
use tables::Table;
use weights::Weight;

impl Plan {
    // The plan with no task and no processor.
    pub fn empty(heap: Global) -> Plan
        ensures { planned result ≡ empty_plan }
    {
        let seating = Seating {
            syncs: 0,
            resources: Vec::new(heap),
            tasks: Vec::new(heap),
        };
        Plan {
            processors: 0,
            seating,
            table: Table::empty(heap),
            weights: Vec::new(heap),
        }
    }

    // How many processors the box has.
    pub fn processors(&self) -> u8
        ensures { result ≡ (planned self.now).processors }
    {
        self.processors
    }

    // How many of them, the last ones, serve critical sections.
    pub fn syncs(&self) -> u8
        ensures { result ≡ (planned self.now).syncs }
    {
        self.seating.syncs
    }

    // The processor of each resource, in the order of their text.
    pub fn sites(&self) -> &[u8]
        ensures { result.now ≡ (planned self.now).seats.resources }
    {
        &self.seating.resources
    }

    // The processor of each task, by rank.
    pub fn homes(&self) -> &[u8]
        ensures { result.now ≡ (planned self.now).seats.tasks }
    {
        &self.seating.tasks
    }

    pub fn table(&self) -> &Table
        ensures { listed result.now ≡ (planned self.now).table }
    {
        &self.table
    }

    // The blocking term and the bounds of each task, by rank.
    pub fn weights(&self) -> &[Weight]
        ensures blocking { terms_of result.now ≡ (planned self.now).blocking }
        ensures bounds { bounds_of result.now ≡ (planned self.now).bounds }
    {
        &self.weights
    }
}
