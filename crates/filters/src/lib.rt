// Filters of the bays: what a filter is, and filters made of others.
#![tactic(auto)]

ghost use Rattle.std.specs.Prelude.{◌≡◌, ℕ, Bool, true, List};
ghost use Rattle.filters.specs.Filter.{Meaning, Lawful, Counted, Resumes, shaped, empty_count};

pub use chain::{Open, Then};
use graphs::Source;
use placements::Problem;
pub use turns::{Repeated, repeat};

mod chain;
mod turns;

// How many pairs a filter took away, and how many rows are empty after it.
#[derive(Clone, Copy, PartialEq, Eq, Debug)]
pub struct Counts {
    pub taken: usize,
    pub empty: usize,
}

pub trait Filter {
    // The rows that the filter leaves.
    ghost left: { Self → Meaning };

    // Thins out the rows, one a unit.
    fn apply<A: Source, R: Source>(&self, problem: &Problem<A, R>, rows: &mut [u64]) -> Counts
        ensures rows { rows.new ≡ left self.now (A.Source.graph problem.now.arrangement.now) (R.Source.graph problem.now.room.now) problem.now.strict rows.old }
        ensures counts { Counted rows.old rows.new result };

    // Does what `apply` does to rows that were cut from rows which the filter has left, and only at the units in `changed`; a
    // filter may save work by it.
    fn resume<A: Source, R: Source>(
        &self,
        problem: &Problem<A, R>,
        changed: u64,
        rows: &mut [u64],
    ) -> Counts
        ensures resumes { Resumes (left self.now) (A.Source.graph problem.now.arrangement.now) (R.Source.graph problem.now.room.now) problem.now.strict changed rows.old rows.new }
        ensures counts { Counted rows.old rows.new result }
    {
        self.apply(problem, rows)
    }

    ghost lawful: { (f : Self) → Lawful (left f) };
}

// How many rows are empty.
pub fn empty_rows(rows: &[u64]) -> usize
    ensures { result ≡ empty_count rows.now }
{
    rows.iter().map(|row| usize::from(*row == 0)).sum()
}

// The counts of a filter that takes nothing away from the rows.
pub fn nothing_taken(rows: &[u64]) -> Counts
    ensures { Counted rows.now rows.now result }
{
    Counts {
        taken: 0,
        empty: empty_rows(rows),
    }
}

// Whether there is one row a unit, at most 24 of them, and no row has a bit at or past the count of bays.
pub fn well_shaped<A: Source, R: Source>(problem: &Problem<A, R>, rows: &[u64]) -> bool
    ensures { result ≡ shaped (A.Source.graph problem.now.arrangement.now) (R.Source.graph problem.now.room.now) rows.now }
{
    let bays = problem.room.count();
    if rows.len() != problem.arrangement.count() || rows.len() > 24 {
        return false;
    }
    // A row has such a bit just if the union of all rows has it, and the union is soon made.
    let mut union: u64 = 0;
    for row in rows {
        union |= *row;
    }
    if bays < 64 && union >> bays != 0 {
        return false;
    }
    true
}
