// Seeks in fixed rooms: tries, whether a placement was found, and the time of one seek.
use crate::BOTH;
use crate::rooms::Family;
use crate::run::{Measure, Run};
use graphs::Source;
use placements::Problem;
use search::{Find, SearchError, first};
use std::io;

// How many tries an answer counts. Trials counts them too, but the crate that both stand on knows nothing of searches.
fn tries_of(answer: Result<Find, SearchError>) -> u64 {
    match answer {
        Ok(find) => u64::from(find.tries),
        Err(SearchError::NoPlacement { tries }) => u64::from(tries),
        Err(SearchError::IllShaped) => 0,
    }
}

fn seek<A: Source, R: Source>(problem: &Problem<A, R>, rows: &[u64]) -> Result<Find, SearchError> {
    first(problem, &BOTH, rows)
}

// A line for the seek in the room with this number.
#[derive(Clone, Copy)]
struct SeekLine<'a> {
    run: Run<'a>,
    name: &'static str,
    number: u64,
}

impl<'a> Measure for SeekLine<'a> {
    fn print<A: Source, R: Source>(&self, problem: Problem<A, R>, rows: &[u64]) -> io::Result<()> {
        let name = self.name;
        let number = self.number;
        let units = problem.arrangement.count();
        let bays = problem.room.count();
        let answer = seek(&problem, rows);
        let tries = tries_of(answer);
        let found = if answer.is_ok() { "found" } else { "none" };
        let turns = 20000 / tries.saturating_add(20) + 1;
        let turn = || tries_of(seek(&problem, rows));
        // Written before the turns, so that a run that is cut off has said what the seek came to.
        print!(self.run.rt; "seek {name} {number} {units} {bays} {tries} {found}")?;
        if let Some(nanos) = self.run.time_of(turns, tries, "tries", turn)? {
            print!(self.run.rt; " {nanos}")?;
        }
        println!(self.run.rt; "")
    }
}

// A seek in each room of the family.
pub(crate) fn seeks(run: Run, family: &Family) -> io::Result<()> {
    let name = family.name;
    for number in 1..=family.rooms {
        family.measure(number, &SeekLine { run, name, number })?;
    }
    Ok(())
}
