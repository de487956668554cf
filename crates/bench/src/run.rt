// One run of the program: what it prints, and the time if that is asked for.
use graphs::Source;
use placements::Problem;
use std::io;
use std::time::Instant;

// What is measured in a room, whatever gives its joints, and printed.
pub(crate) trait Measure {
    fn print<A: Source, R: Source>(&self, problem: Problem<A, R>, rows: &[u64]) -> io::Result<()>;
}

#[derive(Clone, Copy)]
pub(crate) struct Run<'a> {
    pub rt: &'a HostRuntime,
    pub timed: bool,
}

// What so many turns come to.
fn repeated<F: Fn() -> u64>(turns: u64, turn: F) -> u64
    requires { F.IsAlwaysCallable turn }
{
    let mut all: u64 = 0;
    for _ in 0..turns {
        all = all.wrapping_add(turn());
    }
    all
}

impl<'a> Run<'a> {
    // The time of one turn in nanoseconds, if it is asked for. What all turns come to is printed where it is not what it should be,
    // so that no turn can be left out.
    pub(crate) fn time_of<F: Fn() -> u64>(
        &self,
        turns: u64,
        each: u64,
        what: &str,
        turn: F,
    ) -> io::Result<Option<u128>>
        requires { F.IsAlwaysCallable turn }
    {
        if !self.timed {
            return Ok(None);
        }
        let start = Instant::now(self.rt)?;
        let all = repeated(turns, turn);
        let span = start.elapsed(self.rt)?;
        if all != each.wrapping_mul(turns) {
            println!(self.rt; "{all} {what} in {turns} turns")?;
        }
        Ok(Some(span.as_nanos() / u128::from(turns.max(1))))
    }
}
