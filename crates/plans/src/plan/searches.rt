// The calls that search.
ghost use Rattle.std.specs.Prelude.{◌≡◌, ℕ, [], Err, Some, MatchResult, IfOk};
ghost use Rattle.refusals.specs.declared.Reason.TheVariants.{NoFit, OtherCount};
ghost use Rattle.search.specs.Walk.{setting};
ghost use Rattle.ledgers.specs.Calls.{seek, further, what_if};
ghost use Rattle.ledgers.specs.Ledger.{unless, no_fit};
ghost use Rattle.plans.specs.Refused.{finding, asking, Tests, counts_other};
ghost use Rattle.plans.specs.Step.{Step, Shows, turn, view};

use crate::guard::Narrowed;
use crate::plan::Plan;
use crate::refusal::Refusal;
use filters::Filter;
use graphs::Source;
use graphs::pairs::without;
use placements::Problem;
use search::{Find, SearchError, first, next_after};

// Declines sources of other counts.
fn same_counts<A: Source, R: Source>(
    problem: &Problem<A, R>,
    units: usize,
    bays: usize,
) -> Result<(), Refusal>
    ensures { Tests (unless OtherCount (counts_other (A.Source.graph problem.now.arrangement.now) (R.Source.graph problem.now.room.now) units bays)) result }
{
    if problem.arrangement.count() != units || problem.room.count() != bays {
        return Err(Refusal::OtherCount);
    }
    Ok(())
}

// What a search of well shaped rows came to, as the plan answers it.
fn outcome(answer: Result<Find, SearchError>) -> Result<Find, Refusal>
    requires { ¬ (answer ≡ Err SearchError.IllShaped) }
    ensures { MatchResult result (λ find. answer ≡ Ok find) (λ e. (t : ℕ) × (e ≡ Refusal.NoPlacement t) × (answer ≡ Err (SearchError.NoPlacement t))) }
{
    match answer {
        Ok(find) => Ok(find),
        Err(SearchError::NoPlacement { tries }) => Err(Refusal::NoPlacement(tries)),
        Err(SearchError::IllShaped) => unreachable(),
    }
}

impl Plan {
    // The fitted rows, where there is a fit and the sources have the plan's counts.
    fn fitted_for<A: Source, R: Source>(
        &self,
        problem: &Problem<A, R>,
    ) -> Result<&[u64; 24], Refusal>
        ensures tests { Tests (λ v. unless NoFit (no_fit (view self.now).fitted) (unless OtherCount (counts_other (A.Source.graph problem.now.arrangement.now) (R.Source.graph problem.now.room.now) self.now.units self.now.bays) v)) result }
        ensures rows { IfOk result (λ fitted. self.now.fitted ≡ Some fitted.now) }
    {
        let Some(fitted) = &self.fitted else {
            return Err(Refusal::NoFit);
        };
        same_counts(problem, self.units, self.bays)?;
        Ok(fitted)
    }

    // The first placement within the open pairs, into the buffer, with the tries.
    pub fn seek<A: Source, R: Source, F: Filter>(
        &mut self,
        problem: &Problem<A, R>,
        filter: &F,
        out: &mut [u8],
    ) -> Result<u32, Refusal>
        ensures step { Step self.old (turn (seek (setting (A.Source.graph problem.now.arrangement.now) (R.Source.graph problem.now.room.now) problem.now.strict (F.Filter.left filter.now)) out.old) (finding result) out.new) self.new }
        ensures shows { Shows (seek (setting (A.Source.graph problem.now.arrangement.now) (R.Source.graph problem.now.room.now) problem.now.strict (F.Filter.left filter.now)) out.old) }
    {
        let units = self.units;
        let fitted = self.fitted_for(problem)?;
        if out.len() < units {
            return Err(Refusal::ShortBuffer);
        }
        let rows = without(fitted, &self.struck);
        let find = outcome(first(problem, filter, &rows[..units]))?;
        out[..units].copy_from_slice(&find.bays[..units]);
        self.last = Some(find.bays);
        Ok(find.tries)
    }

    // The first placement after the last answer, into the buffer, with the tries. It ends as `seek` does: one method for both would ask
    // again, in a clause each, that the answer is well shaped, has low bays and zeros behind and fits the buffer, for four lines.
    pub fn further<A: Source, R: Source, F: Filter>(
        &mut self,
        problem: &Problem<A, R>,
        filter: &F,
        out: &mut [u8],
    ) -> Result<u32, Refusal>
        ensures step { Step self.old (turn (further (setting (A.Source.graph problem.now.arrangement.now) (R.Source.graph problem.now.room.now) problem.now.strict (F.Filter.left filter.now)) out.old) (finding result) out.new) self.new }
        ensures shows { Shows (further (setting (A.Source.graph problem.now.arrangement.now) (R.Source.graph problem.now.room.now) problem.now.strict (F.Filter.left filter.now)) out.old) }
    {
        let units = self.units;
        let fitted = self.fitted_for(problem)?;
        let last = self.last.ok_or(Refusal::NoLastAnswer)?;
        if out.len() < units {
            return Err(Refusal::ShortBuffer);
        }
        let rows = without(fitted, &self.struck);
        let next = outcome(next_after(problem, filter, &rows[..units], &last))?;
        out[..units].copy_from_slice(&next.bays[..units]);
        self.last = Some(next.bays);
        Ok(next.tries)
    }

    // Whether some placement within the open pairs has the unit on the bay, with the tries; the guard puts the row back.
    pub fn what_if<A: Source, R: Source, F: Filter>(
        &mut self,
        unit: usize,
        bay: usize,
        problem: &Problem<A, R>,
        filter: &F,
    ) -> Result<u32, Refusal>
        ensures step { Step self.old (turn (what_if unit bay (setting (A.Source.graph problem.now.arrangement.now) (R.Source.graph problem.now.room.now) problem.now.strict (F.Filter.left filter.now))) (asking result) []) self.new }
        ensures shows { Shows (what_if unit bay (setting (A.Source.graph problem.now.arrangement.now) (R.Source.graph problem.now.room.now) problem.now.strict (F.Filter.left filter.now))) }
    {
        self.in_range(unit, bay)?;
        let struck = &self.struck;
        let Some(fitted) = &mut self.fitted else {
            return Err(Refusal::NoFit);
        };
        same_counts(problem, self.units, self.bays)?;
        let saved = fitted[unit];
        let guard = Narrowed {
            rows: fitted,
            unit,
            saved,
        };
        guard.rows[unit] = saved & (1 << bay);
        let rows = without(guard.rows, struck);
        let find = outcome(first(problem, filter, &rows[..self.units]))?;
        Ok(find.tries)
    }
}
