// Fixed arrangements and rooms, drawn from a shape and a number.
use crate::run::Measure;
use drawing::{Case, Chance, Graph};
use graphs::Source;
use placements::Problem;
use sources::{JointTable, WallGrid};
use std::io;

// A graph to be drawn.
#[derive(Clone, Copy)]
pub enum Shape {
    // Each two nodes are joined so many times in a hundred.
    Random { nodes: usize, hundredths: u64 },
    // A tree, and some joints more.
    Tree { nodes: usize, more: usize },
    // A wall of columns and levels, by its two sizes.
    Wall { columns: usize, levels: usize },
    // The same joints, by a table.
    Grid { columns: usize, levels: usize },
    Ring { nodes: usize },
}

// Rooms of one kind: what is placed on what, in which use, and how many pairs in a hundred are open.
#[derive(Clone, Copy)]
pub(crate) struct Family {
    pub name: &'static str,
    pub rooms: u64,
    pub units: Shape,
    pub bays: Shape,
    pub strict: bool,
    pub open: u64,
}

fn tree(chance: &mut Chance, nodes: usize, more: usize) -> Graph {
    let mut graph = Graph::new(nodes);
    for a in 1..nodes {
        graph.join(a, chance.below(a));
    }
    for _ in 0..more {
        let a = chance.below(nodes);
        let b = chance.below(nodes);
        graph.join(a, b);
    }
    graph
}

fn ring(nodes: usize) -> Graph {
    let mut graph = Graph::new(nodes);
    for a in 0..nodes {
        graph.join(a, (a + 1) % nodes);
    }
    graph
}

impl Shape {
    fn graph(self, chance: &mut Chance) -> Graph {
        match self {
            Shape::Random { nodes, hundredths } => Graph::random(chance, nodes, hundredths),
            Shape::Tree { nodes, more } => tree(chance, nodes, more),
            Shape::Wall { columns, levels } | Shape::Grid { columns, levels } => {
                Graph::wall(columns, levels)
            }
            Shape::Ring { nodes } => ring(nodes),
        }
    }
}

impl Family {
    // The case with this number.
    fn case(&self, number: u64) -> Case {
        let mut chance = Chance::new(number);
        let units = self.units.graph(&mut chance);
        let bays = self.bays.graph(&mut chance);
        Case::random(&mut chance, units, bays, self.open)
    }

    // Measures a case by the source of its room's joints.
    fn print_in<R: Source, M: Measure>(
        &self,
        case: &Case,
        room: &R,
        measure: &M,
    ) -> io::Result<()> {
        let problem = Problem {
            arrangement: &JointTable::new(case.units.rows(), case.units.count),
            room,
            strict: self.strict,
        };
        measure.print(problem, case.rows())
    }

    // Measures in the room with this number: a wall by its two sizes, and any other room by a joint table.
    pub(crate) fn measure<M: Measure>(&self, number: u64, measure: &M) -> io::Result<()> {
        let case = self.case(number);
        // The sources are of two types, so each has its call.
        match self.bays {
            Shape::Wall { columns, levels } => {
                self.print_in(&case, &WallGrid::new(columns, levels), measure)
            }
            _ => {
                let table = JointTable::new(case.bays.rows(), case.bays.count);
                self.print_in(&case, &table, measure)
            }
        }
    }
}
