// Filters and seeks on fixed rooms: what they come to, and with the word `time` how long they take, in nanoseconds.
#![tactic(auto)]

mod applications;
mod rooms;
mod run;
mod seeks;

use applications::applications;
use consistency::ArcConsistency;
use degree::Degree;
use filters::Then;
use rooms::{Family, Shape};
use run::Run;
use seeks::seeks;
use std::{env, io};

const BOTH: Then<Degree, ArcConsistency> = Then {
    first: Degree,
    second: ArcConsistency,
};

// Arrangements of 24 units on rooms of 64 bays, with all pairs open or few of them.
const APPLIED: [Family; 9] = [
    Family {
        name: "sparse",
        rooms: 1,
        units: Shape::Tree { nodes: 24, more: 8 },
        bays: Shape::Random {
            nodes: 64,
            hundredths: 10,
        },
        strict: false,
        open: 100,
    },
    Family {
        name: "sparse-thin",
        rooms: 1,
        units: Shape::Tree { nodes: 24, more: 8 },
        bays: Shape::Random {
            nodes: 64,
            hundredths: 10,
        },
        strict: false,
        open: 30,
    },
    Family {
        name: "dense",
        rooms: 1,
        units: Shape::Random {
            nodes: 24,
            hundredths: 50,
        },
        bays: Shape::Random {
            nodes: 64,
            hundredths: 60,
        },
        strict: false,
        open: 100,
    },
    Family {
        name: "dense-thin",
        rooms: 1,
        units: Shape::Random {
            nodes: 24,
            hundredths: 50,
        },
        bays: Shape::Random {
            nodes: 64,
            hundredths: 60,
        },
        strict: false,
        open: 15,
    },
    Family {
        name: "wall",
        rooms: 1,
        units: Shape::Grid {
            columns: 6,
            levels: 4,
        },
        bays: Shape::Wall {
            columns: 8,
            levels: 8,
        },
        strict: false,
        open: 100,
    },
    Family {
        name: "grid",
        rooms: 1,
        units: Shape::Grid {
            columns: 6,
            levels: 4,
        },
        bays: Shape::Grid {
            columns: 8,
            levels: 8,
        },
        strict: false,
        open: 100,
    },
    Family {
        name: "grid-thin",
        rooms: 1,
        units: Shape::Grid {
            columns: 6,
            levels: 4,
        },
        bays: Shape::Grid {
            columns: 8,
            levels: 8,
        },
        strict: false,
        open: 60,
    },
    Family {
        name: "strict",
        rooms: 1,
        units: Shape::Tree { nodes: 24, more: 8 },
        bays: Shape::Random {
            nodes: 64,
            hundredths: 30,
        },
        strict: true,
        open: 100,
    },
    Family {
        name: "strict-thin",
        rooms: 1,
        units: Shape::Tree { nodes: 24, more: 8 },
        bays: Shape::Random {
            nodes: 64,
            hundredths: 30,
        },
        strict: true,
        open: 15,
    },
];

// Rooms in which a seek mostly finds a placement, strict ones, rooms without a placement, and random ones near the point where
// placements become rare.
const SOUGHT: [Family; 10] = [
    Family {
        name: "sparse",
        rooms: 8,
        units: Shape::Tree {
            nodes: 24,
            more: 12,
        },
        bays: Shape::Random {
            nodes: 64,
            hundredths: 15,
        },
        strict: false,
        open: 60,
    },
    Family {
        name: "dense",
        rooms: 8,
        units: Shape::Random {
            nodes: 24,
            hundredths: 60,
        },
        bays: Shape::Random {
            nodes: 64,
            hundredths: 75,
        },
        strict: false,
        open: 90,
    },
    Family {
        name: "wall",
        rooms: 6,
        units: Shape::Grid {
            columns: 12,
            levels: 2,
        },
        bays: Shape::Wall {
            columns: 8,
            levels: 8,
        },
        strict: false,
        open: 70,
    },
    Family {
        name: "grid",
        rooms: 6,
        units: Shape::Grid {
            columns: 12,
            levels: 2,
        },
        bays: Shape::Grid {
            columns: 8,
            levels: 8,
        },
        strict: false,
        open: 70,
    },
    Family {
        name: "path",
        rooms: 6,
        units: Shape::Grid {
            columns: 20,
            levels: 1,
        },
        bays: Shape::Wall {
            columns: 8,
            levels: 8,
        },
        strict: false,
        open: 70,
    },
    Family {
        name: "strict",
        rooms: 8,
        units: Shape::Tree { nodes: 12, more: 4 },
        bays: Shape::Random {
            nodes: 64,
            hundredths: 30,
        },
        strict: true,
        open: 60,
    },
    Family {
        name: "strict-dense",
        rooms: 4,
        units: Shape::Random {
            nodes: 10,
            hundredths: 50,
        },
        bays: Shape::Random {
            nodes: 64,
            hundredths: 50,
        },
        strict: true,
        open: 70,
    },
    Family {
        name: "none",
        rooms: 3,
        units: Shape::Ring { nodes: 9 },
        bays: Shape::Wall {
            columns: 8,
            levels: 8,
        },
        strict: false,
        open: 90,
    },
    Family {
        name: "none-dense",
        rooms: 3,
        units: Shape::Random {
            nodes: 9,
            hundredths: 95,
        },
        bays: Shape::Random {
            nodes: 40,
            hundredths: 45,
        },
        strict: false,
        open: 100,
    },
    Family {
        name: "rare",
        rooms: 8,
        units: Shape::Random {
            nodes: 10,
            hundredths: 60,
        },
        bays: Shape::Random {
            nodes: 40,
            hundredths: 40,
        },
        strict: false,
        open: 100,
    },
];

fn main(rt: HostRuntime) -> io::Result<()> {
    let run = Run {
        rt: &rt,
        timed: env::args(&rt)?.any(|word| word.as_str() == "time"),
    };
    for family in &APPLIED {
        applications(run, family)?;
    }
    for family in &SOUGHT {
        seeks(run, family)?;
    }
    Ok(())
}
