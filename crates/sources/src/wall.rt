// A wall of columns and levels as a source of joints.
ghost use Rattle.std.specs.Prelude.{◌≡◌, ◌*◌, ◌≤◌};
ghost use Rattle.graphs.specs.Rows.{row_of};
ghost use Rattle.graphs.specs.WallGrid.{wall_graph, wall_joined, WallLawful};
ghost use Rattle.graphs.proofs.Walls.{wall_sound, wall_symmetric};
ghost use Rattle.sources.specs.Drawn.{Drawn};
ghost use Rattle.sources.specs.Faults.{LookedOver};
ghost use Rattle.sources.specs.Taking.{Taken};

use crate::drawn::row_at;
use crate::fault::JointFault;
use graphs::{Source, with_node};
use std::array;

// How many columns and levels a lawful wall has.
#[derive(Clone, Copy)]
struct Extent {
    columns: usize,
    levels: usize,
    ghost wide: { 1 ≤ columns },
    ghost high: { 1 ≤ levels },
    ghost few: { columns * levels ≤ 64 },
}

impl Extent {
    // How many nodes the wall has.
    fn count(&self) -> usize
        ensures { result ≡ self.now.columns * self.now.levels }
    {
        self.columns * self.levels
    }

    // The nodes that `a` is joined to.
    #[tactic(auto, using(crate::proofs::Grids::narrow))]
    fn neighbours(&self, a: usize) -> u64
        ensures { result ≡ row_of (self.now.columns * self.now.levels) (wall_joined self.now.columns (self.now.columns * self.now.levels) a) }
    {
        let count = self.count();
        if a >= count {
            return 0;
        }
        let column = a % self.columns;
        let left = with_node(0, column > 0, a.saturating_sub(1));
        let level = with_node(left, column + 1 < self.columns, a + 1);
        let below = with_node(level, a >= self.columns, a.saturating_sub(self.columns));
        with_node(below, a + self.columns < count, a + self.columns)
    }

    // The rows of all nodes.
    fn rows(&self) -> [u64; 64]
        ensures { Drawn self.now.columns self.now.levels result }
    {
        array::from_fn(|a| self.neighbours(a))
    }
}

// Node `level * columns + column` is joined to its neighbours on its level and to those directly above and below. The rows are
// worked out once, so that a search does not divide for each node that it asks about.
#[derive(Clone, Copy)]
pub struct WallGrid {
    extent: Extent,
    rows: [u64; 64],
    ghost drawn: { Drawn extent.columns extent.levels rows },
}

impl WallGrid {
    // Two numbers, as a caller has them; once looked over they are an extent.
    pub fn look_over(columns: usize, levels: usize) -> Result<(), JointFault>
        ensures { LookedOver result (WallLawful columns levels) }
    {
        match columns.checked_mul(levels) {
            Some(1..=64) => Ok(()),
            _ => Err(JointFault { place: 0 }),
        }
    }

    // What the look-over declines is taken as a wall of one node.
    pub fn new(columns: usize, levels: usize) -> WallGrid
        ensures { Taken (WallLawful columns levels) (wall_graph columns levels) (⟦<WallGrid as Source>⟧.graph result) }
    {
        let extent = match WallGrid::look_over(columns, levels) {
            Ok(()) => Extent { columns, levels },
            Err(_) => Extent {
                columns: 1,
                levels: 1,
            },
        };
        WallGrid {
            extent,
            rows: extent.rows(),
        }
    }
}

impl Source for WallGrid {
    ghost graph = { λ s. wall_graph s.extent.columns s.extent.levels };

    ghost sound = { λ s. wall_sound s.extent.columns s.extent.levels s.extent.wide s.extent.high s.extent.few };

    ghost symmetric = { λ s. wall_symmetric s.extent.columns s.extent.levels };

    fn count(&self) -> usize {
        self.extent.count()
    }

    #[tactic(auto, using(crate::proofs::Grids::narrow))]
    fn joined(&self, a: usize, b: usize) -> bool {
        let count = self.extent.count();
        let columns = self.extent.columns;
        if a >= count || b >= count {
            return false;
        }
        if a / columns == b / columns {
            (a + 1 == b) | (b + 1 == a)
        } else {
            (a + columns == b) | (b + columns == a)
        }
    }

    fn row(&self, a: usize) -> u64 {
        row_at(&self.rows, a)
    }

    // Joints hold both ways.
    fn column(&self, b: usize) -> u64 {
        row_at(&self.rows, b)
    }
}
