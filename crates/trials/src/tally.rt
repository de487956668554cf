// What was compared.
use search::{Find, SearchError};
use std::fmt;

// Searches, the placements and tries that they answered, and how often the two searches differed.
#[derive(Clone, Copy, Default)]
pub(crate) struct Tally {
    searches: u64,
    placements: u64,
    tries: u64,
    differences: u64,
}

impl Tally {
    pub(crate) fn count(&mut self, answer: Result<Find, SearchError>, same: bool) {
        let (placements, tries) = match answer {
            Ok(find) => (1, find.tries),
            Err(SearchError::NoPlacement { tries }) => (0, tries),
            Err(SearchError::IllShaped) => (0, 0),
        };
        self.searches = self.searches.saturating_add(1);
        self.placements = self.placements.saturating_add(placements);
        self.tries = self.tries.saturating_add(u64::from(tries));
        self.differences = self.differences.saturating_add(u64::from(!same));
    }
}

impl fmt::Display for Tally {
    fn fmt<W: fmt::Write>(&self, f: &mut fmt::Formatter<W>) -> fmt::Result {
        let searches = self.searches;
        let placements = self.placements;
        let tries = self.tries;
        let differences = self.differences;
        write!(
            f,
            "{searches:>9} {placements:>11} {tries:>8} {differences:>12}"
        )
    }
}
