// Filters on fixed rooms: how many pairs they take away, and the time of one application.
use crate::BOTH;
use crate::rooms::Family;
use crate::run::{Measure, Run};
use consistency::ArcConsistency;
use degree::Degree;
use filters::Filter;
use graphs::Source;
use placements::Problem;
use std::io;

const TURNS: u64 = 20000;

// How many pairs the filter takes away from the rows. They are copied to an array, so that no allocation is timed.
fn taken<A: Source, R: Source, F: Filter>(
    filter: &F,
    problem: &Problem<A, R>,
    rows: &[u64],
) -> u64 {
    let mut left = [0u64; 24];
    let count = rows.len().min(24);
    let part = &mut left[0..count];
    part.copy_from_slice(&rows[0..count]);
    filter.apply(problem, part).taken as u64
}

// A line for each filter.
#[derive(Clone, Copy)]
struct FilterLines<'a> {
    run: Run<'a>,
    name: &'static str,
}

impl<'a> FilterLines<'a> {
    fn line<A: Source, R: Source, F: Filter>(
        &self,
        by: &str,
        filter: &F,
        problem: &Problem<A, R>,
        rows: &[u64],
    ) -> io::Result<()> {
        let name = self.name;
        let units = problem.arrangement.count();
        let bays = problem.room.count();
        let pairs = taken(filter, problem, rows);
        let turn = || taken(filter, problem, rows);
        // Each line is written whole, by one call.
        match self.run.time_of(TURNS, pairs, "pairs", turn)? {
            None => println!(self.run.rt; "apply {name} {by} {units} {bays} {pairs} taken"),
            Some(nanos) => {
                println!(self.run.rt; "apply {name} {by} {units} {bays} {pairs} taken {nanos}")
            }
        }
    }
}

impl<'a> Measure for FilterLines<'a> {
    fn print<A: Source, R: Source>(&self, problem: Problem<A, R>, rows: &[u64]) -> io::Result<()> {
        self.line("degree", &Degree, &problem, rows)?;
        self.line("arcs", &ArcConsistency, &problem, rows)?;
        self.line("both", &BOTH, &problem, rows)
    }
}

// Each filter in the first room of the family.
pub(crate) fn applications(run: Run, family: &Family) -> io::Result<()> {
    let name = family.name;
    family.measure(1, &FilterLines { run, name })
}
