// The filter by degrees: a bay needs as many joints as the unit that stands on it.
#![tactic(auto)]

ghost use Rattle.degree.specs.Degree.{degree_meaning};
ghost use Rattle.degree.specs.Spared.{degree_lawful};

use filters::{Counts, Filter, nothing_taken};
use graphs::Source;
pub use joints::joint_count;
use placements::Problem;
pub use thin::thin_by_degree;

mod joints;
mod thin;

// The filter by degrees.
#[derive(Clone, Copy)]
pub struct Degree;

impl Filter for Degree {
    ghost left = { λ _. degree_meaning };

    ghost lawful = { λ s. degree_lawful };

    fn apply<A: Source, R: Source>(&self, problem: &Problem<A, R>, rows: &mut [u64]) -> Counts {
        thin_by_degree(problem, rows)
    }

    // Joints are counted within all bays, so whatever was cut, the pairs that are left still pass.
    fn resume<A: Source, R: Source>(
        &self,
        _problem: &Problem<A, R>,
        _changed: u64,
        rows: &mut [u64],
    ) -> Counts {
        nothing_taken(rows)
    }
}
