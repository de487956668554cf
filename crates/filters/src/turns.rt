// A filter applied again and again, until a turn takes nothing away.
ghost use Rattle.std.specs.Prelude.{◌≡◌};
ghost use Rattle.filters.specs.Filter.{Counted};
ghost use Rattle.filters.specs.Composed.{repeat_meaning, Settles};
ghost use Rattle.filters.specs.Laws.{repeat_lawful};

use crate::{Counts, Filter};
use graphs::Source;
use placements::Problem;

// Applies the filter until a turn takes nothing away.
pub fn repeat<F: Filter, A: Source, R: Source>(
    filter: &F,
    problem: &Problem<A, R>,
    rows: &mut [u64],
) -> Counts
    ensures rows { rows.new ≡ repeat_meaning (F.Filter.left filter.now) (A.Source.graph problem.now.arrangement.now) (R.Source.graph problem.now.room.now) problem.now.strict rows.old }
    ensures settles { Settles (F.Filter.left filter.now (A.Source.graph problem.now.arrangement.now) (R.Source.graph problem.now.room.now) problem.now.strict) rows.old rows.new }
    ensures counts { Counted rows.old rows.new result }
{
    let mut taken: usize = 0;
    'turn: loop {
        let turn = filter.apply(problem, rows);
        taken += turn.taken;
        if turn.taken == 0 {
            return Counts {
                taken,
                empty: turn.empty,
            };
        }
    }
}

// Repeats a filter.
#[derive(Clone, Copy)]
pub struct Repeated<F> {
    pub filter: F,
}

impl<F: Filter> Filter for Repeated<F> {
    ghost left = { λ s. repeat_meaning (F.Filter.left s.filter) };

    ghost lawful = { λ s. repeat_lawful (F.Filter.left s.filter) (F.Filter.lawful s.filter) };

    fn apply<A: Source, R: Source>(&self, problem: &Problem<A, R>, rows: &mut [u64]) -> Counts {
        repeat(&self.filter, problem, rows)
    }
}
