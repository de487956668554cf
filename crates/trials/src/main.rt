// Compares the search with a second one, which tests every list of bays, on random small rooms.
#![tactic(auto)]

mod comparison;
mod plain;
mod tally;

use comparison::Comparison;
use consistency::ArcConsistency;
use degree::Degree;
use drawing::{Case, Chance, Graph};
use filters::{Filter, Open, Repeated, Then};
use graphs::Source;
use placements::Problem;
use plain::{PlainSearch, drawn_case};
use sources::{JointTable, WallGrid};
use std::io;
use tally::Tally;

const START: u64 = 20240917;

const ROOMS: usize = 3000;

// The rooms in which the searches are compared, under one filter in one use.
#[derive(Drop)]
struct Trial<'a, F> {
    strict: bool,
    filter: &'a F,
    chance: Chance,
    tally: Tally,
}

impl<'a, F: Filter + Drop> Trial<'a, F> {
    fn new(strict: bool, filter: &'a F) -> Trial<'a, F> {
        Trial {
            strict,
            filter,
            chance: Chance::new(START),
            tally: Tally::default(),
        }
    }

    // All searches in one room.
    fn compare<'r, R: Source>(&mut self, case: &'r Case, room: &'r R) {
        let plain = PlainSearch {
            case,
            strict: self.strict,
        };
        let number = self.chance.between(0, plain.lists().saturating_sub(1));
        let comparison = Comparison {
            plain,
            problem: Problem {
                arrangement: &JointTable::new(case.units.rows(), case.units.count),
                room,
                strict: self.strict,
            },
            filter: self.filter,
        };
        comparison.chain(&mut self.tally);
        comparison.after(number, &mut self.tally);
    }

    // A room of 2 to 6 bays, by a joint table.
    fn compare_in_table(&mut self) {
        let count = self.chance.between(2, 6);
        let hundredths = self.chance.between(30, 90) as u64;
        let bays = Graph::random(&mut self.chance, count, hundredths);
        let case = drawn_case(&mut self.chance, bays);
        self.compare(&case, &JointTable::new(case.bays.rows(), case.bays.count));
    }

    // A room by a wall.
    fn compare_in_wall(&mut self) {
        let columns = self.chance.between(1, 3);
        let levels = self.chance.between(1, 2);
        let case = drawn_case(&mut self.chance, Graph::wall(columns, levels));
        self.compare(&case, &WallGrid::new(columns, levels));
    }

    // Every room, of each kind in turn.
    fn run(mut self) -> Tally {
        for _ in 0..ROOMS / 2 {
            self.compare_in_table();
            self.compare_in_wall();
        }
        self.tally
    }
}

// A line for each use.
fn report<F: Filter + Drop>(rt: &HostRuntime, name: &str, filter: &F) -> io::Result<()> {
    for (joints, strict) in [("open", false), ("strict", true)] {
        let tally = Trial::new(strict, filter).run();
        println!(rt; "{name:<24} {joints:<6} {ROOMS:>6} {tally}")?;
    }
    Ok(())
}

fn main(rt: HostRuntime) -> io::Result<()> {
    let both = Then {
        first: Degree,
        second: ArcConsistency,
    };
    println!(rt;
        "filter                   use     rooms  searches  placements    tries  differences"
    )?;
    report(&rt, "open", &Open)?;
    report(&rt, "degree", &Degree)?;
    report(&rt, "arc consistency", &ArcConsistency)?;
    report(&rt, "degree, arc consistency", &both)?;
    report(&rt, "repeated", &Repeated { filter: both })
}
