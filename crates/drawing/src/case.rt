// Cases of a search, drawn row by row.
ghost use Rattle.std.specs.Prelude.{◌≡◌, ◌^◌, ◌<◌, All, take};

use crate::chance::Chance;
use crate::graph::Graph;

// An arrangement, a room, and for each unit the row of the bays that are open to it. The rows are an array, as those of a graph are.
#[derive(Clone, Copy)]
pub struct Case {
    pub units: Graph,
    pub bays: Graph,
    rows: [u64; 64],
    ghost inside: { All (λ row. row < 2 ^ bays.count) rows },
}

impl Case {
    // Each bay is open to each unit so many times in a hundred.
    pub fn random(chance: &mut Chance, units: Graph, bays: Graph, hundredths: u64) -> Case
        ensures units { result.units ≡ units }
        ensures bays { result.bays ≡ bays }
    {
        let mut rows = [0; 64];
        for row in rows[..units.count].iter_mut() {
            *row = chance.row(bays.count, hundredths);
        }
        Case { units, bays, rows }
    }

    // The rows of the units, as a search takes them.
    pub fn rows(&self) -> &[u64]
        ensures rows { result.now ≡ take self.now.units.count self.now.rows }
        ensures inside { All (λ row. row < 2 ^ self.now.bays.count) result.now }
    {
        &self.rows[..self.units.count]
    }
}
