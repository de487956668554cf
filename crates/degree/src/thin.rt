// The rows that keep the pairs of a unit and a bay with joints enough.
ghost use Rattle.std.specs.Prelude.{◌≡◌, ℕ, ◌<◌};
ghost use Rattle.graphs.specs.Rows.{bit};
ghost use Rattle.filters.specs.Filter.{Counted};
ghost use Rattle.degree.specs.Degree.{degree_meaning, degree_test, ByDegree};
ghost use Rattle.degree.specs.Worked.{Worked};

use crate::joints::{degree_of, with_fewer};
use filters::{Counts, empty_rows, nothing_taken, well_shaped};
use graphs::Source;
use placements::Problem;

// The bays that have joints enough for the unit: at least as many, and in strict use not too many.
fn enough<A: Source, R: Source>(
    problem: &Problem<A, R>,
    fewer: &[u64; 65],
    units: usize,
    bays: usize,
    u: usize,
) -> u64
    requires sorted { ByDegree (R.Source.graph problem.now.room.now) fewer.now }
    requires all_units { units ≡ (A.Source.graph problem.now.arrangement.now).count }
    requires all_bays { bays ≡ (R.Source.graph problem.now.room.now).count }
    ensures { (b : ℕ) → b < (R.Source.graph problem.now.room.now).count → bit result b ≡ degree_test (A.Source.graph problem.now.arrangement.now) (R.Source.graph problem.now.room.now) problem.now.strict u b }
{
    let joints = degree_of(problem.arrangement, u);
    let many = !fewer[joints];
    if problem.strict {
        many & fewer[bays.saturating_sub(units - 1 - joints)]
    } else {
        many
    }
}

// Keeps the pairs of a unit and a bay that has joints enough for it.
pub fn thin_by_degree<A: Source, R: Source>(problem: &Problem<A, R>, rows: &mut [u64]) -> Counts
    ensures rows { rows.new ≡ degree_meaning (A.Source.graph problem.now.arrangement.now) (R.Source.graph problem.now.room.now) problem.now.strict rows.old }
    ensures counts { Counted rows.old rows.new result }
    ensures worked { Worked }
{
    if !well_shaped(problem, rows) {
        return nothing_taken(rows);
    }
    let fewer = with_fewer(problem.room);
    // Asked for once, as nothing says how long a source takes to count.
    let (units, bays) = (rows.len(), problem.room.count());
    let mut taken: usize = 0;
    for (u, row) in rows.iter_mut().enumerate() {
        let left = *row & enough(problem, &fewer, units, bays, u);
        taken += (row.count_ones() - left.count_ones()) as usize;
        *row = left;
    }
    Counts {
        taken,
        empty: empty_rows(rows),
    }
}
