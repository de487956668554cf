// The two searches side by side.
use crate::plain::PlainSearch;
use crate::tally::Tally;
use filters::Filter;
use graphs::Source;
use placements::Problem;
use search::{Find, SearchError, first, next_after};

// The second search of a case, and the same as the search is asked it. The filter is lent for longer, so it has a lifetime of its own.
#[derive_where(Clone, Copy)]
pub(crate) struct Comparison<'a, 'f, A, R, F> {
    pub plain: PlainSearch<'a>,
    pub problem: Problem<'a, A, R>,
    pub filter: &'f F,
}

impl<'a, 'f, A: Source, R: Source, F: Filter> Comparison<'a, 'f, A, R, F> {
    // Whether the answer is the list with this number, or no placement where there is none.
    fn same(&self, wanted: Option<usize>, answer: Result<Find, SearchError>) -> bool {
        match (wanted, answer) {
            (Some(number), Ok(find)) => {
                let bays = &find.bays[0..self.plain.case.units.count.min(24)];
                find.bays == self.plain.list(number) && self.problem.is_placement(bays)
            }
            (None, Err(SearchError::NoPlacement { .. })) => true,
            _ => false,
        }
    }

    // Counts the answer of the search, and gives the number of the first placement from `from` on where both searches agree on it.
    fn agreed(
        &self,
        from: usize,
        answer: Result<Find, SearchError>,
        tally: &mut Tally,
    ) -> Option<usize> {
        let wanted = self.plain.placement_from(from);
        let same = self.same(wanted, answer);
        tally.count(answer, same);
        wanted.filter(|_| same)
    }

    // The first placement after the list with this number, which need be no placement.
    pub(crate) fn after(&self, number: usize, tally: &mut Tally) -> Option<usize> {
        let last = self.plain.list(number);
        let answer = next_after(&self.problem, self.filter, self.plain.case.rows(), &last);
        self.agreed(number.saturating_add(1), answer, tally)
    }

    // The chain of all placements, each sought after the one before.
    pub(crate) fn chain(&self, tally: &mut Tally) {
        let answer = first(&self.problem, self.filter, self.plain.case.rows());
        let mut placement = self.agreed(0, answer, tally);
        for _ in 0..self.plain.lists() {
            let Some(number) = placement else { return };
            placement = self.after(number, tally);
        }
    }
}
