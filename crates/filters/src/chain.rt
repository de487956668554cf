// The filter that takes nothing away, and two filters one after the other.
ghost use Rattle.std.specs.Prelude.{◌≡◌, ◌+◌, ◌^◌, ◌<◌, ◌≤◌, true};
ghost use Rattle.filters.specs.Filter.{pair_count};
ghost use Rattle.filters.specs.Composed.{open_meaning, then_meaning};
ghost use Rattle.std.proofs.Common.{rules};
ghost use Rattle.filters.specs.Laws.{then_lawful};

use crate::{Counts, Filter, nothing_taken};
use graphs::Source;
use placements::Problem;

// Takes nothing away.
#[derive(Clone, Copy)]
pub struct Open;

impl Filter for Open {
    ghost left = { λ _. open_meaning };

    ghost lawful = { Prim.search rules };

    fn apply<A: Source, R: Source>(&self, _problem: &Problem<A, R>, rows: &mut [u64]) -> Counts {
        nothing_taken(rows)
    }
}

impl Counts {
    // The counts of this filter and of the one after it.
    fn then(self, second: Counts) -> Counts
        requires { self.taken + second.taken < 2 ^ 64 }
        ensures taken { result.taken ≡ self.taken + second.taken }
        ensures empty { result.empty ≡ second.empty }
    {
        Counts {
            taken: self.taken + second.taken,
            empty: second.empty,
        }
    }
}

// Whether there are so few rows that counts of their pairs never wrap.
fn countable(rows: &[u64]) -> bool
    ensures { result ≡ true → pair_count rows.now ≤ 1536 }
{
    rows.len() <= 24
}

// Shows the second filter what the first leaves, also where the first leaves a row empty.
#[derive(Clone, Copy)]
pub struct Then<F, G> {
    pub first: F,
    pub second: G,
}

impl<F: Filter, G: Filter> Filter for Then<F, G> {
    ghost left = { λ s. then_meaning (F.Filter.left s.first) (G.Filter.left s.second) };

    ghost lawful = { λ s. then_lawful (F.Filter.left s.first) (G.Filter.left s.second) (F.Filter.lawful s.first) (G.Filter.lawful s.second) };

    fn apply<A: Source, R: Source>(&self, problem: &Problem<A, R>, rows: &mut [u64]) -> Counts {
        let first = self.first.apply(problem, rows);
        let second = self.second.apply(problem, rows);
        first.then(second)
    }

    // The second filter may have cut any row that the first left, so the first is resumed at all units. Only where it takes nothing
    // away are the rows cut from what the second left.
    fn resume<A: Source, R: Source>(
        &self,
        problem: &Problem<A, R>,
        changed: u64,
        rows: &mut [u64],
    ) -> Counts {
        if !countable(rows) {
            return self.apply(problem, rows);
        }
        let first = self.first.resume(problem, u64::MAX, rows);
        if first.taken == 0 {
            return self.second.resume(problem, changed, rows);
        }
        let second = self.second.apply(problem, rows);
        first.then(second)
    }
}
