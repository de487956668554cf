// Graphs that are drawn joint by joint.
ghost use Rattle.std.specs.Prelude.{◌≡◌, ℕ, ◌*◌, ◌<◌, ◌≤◌, ◌||◌, true, false, min, replicate, take};
ghost use Rattle.graphs.specs.Rows.{pairs};
ghost use Rattle.graphs.specs.JointTable.{TableLawful};
ghost use Rattle.drawing.specs.Joints.{joins};

use crate::chance::Chance;
use graphs::holds;

// Up to 64 nodes, and a row for each of those that it is joined to. The rows are an array, so that a graph is `Copy` and making one
// cannot fail; libraries here use no heap.
#[derive(Clone, Copy)]
pub struct Graph {
    pub count: usize,
    pub rows: [u64; 64],
    ghost few: { count ≤ 64 },
    ghost inside: { (a b : ℕ) → pairs rows a b ≡ true → b < count },
    ghost irreflexive: { (a : ℕ) → pairs rows a a ≡ false },
    ghost symmetric: { (a b : ℕ) → pairs rows a b ≡ pairs rows b a },
}

impl Graph {
    // A graph with no joints.
    pub fn new(count: usize) -> Graph
        ensures count { result.count ≡ min count 64 }
        ensures none { result.rows ≡ replicate 64 0 }
    {
        Graph {
            count: count.min(64),
            rows: [0; 64],
        }
    }

    // The rows of the nodes, which a joint table takes as they are.
    pub fn rows(&self) -> &[u64]
        ensures rows { result.now ≡ take self.now.count self.now.rows }
        ensures lawful { 1 ≤ self.now.count → TableLawful result.now self.now.count }
    {
        &self.rows[..self.count]
    }

    pub fn joined(&self, a: usize, b: usize) -> bool
        ensures { result ≡ pairs self.now.rows a b }
    {
        a < 64 && holds(self.rows[a], b)
    }

    // Joins two different nodes both ways; others it leaves as they are.
    pub fn join(&mut self, a: usize, b: usize)
        ensures count { self.new.count ≡ self.old.count }
        ensures joined { (c d : ℕ) → pairs self.new.rows c d ≡ (pairs self.old.rows c d || joins self.old.count a b c d) }
    {
        if a < self.count && b < self.count && a != b {
            self.rows[a] |= 1 << b;
            self.rows[b] |= 1 << a;
        }
    }

    // Each two nodes are joined so many times in a hundred.
    pub fn random(chance: &mut Chance, count: usize, hundredths: u64) -> Graph
        ensures { result.count ≡ min count 64 }
    {
        let mut graph = Graph::new(count);
        for a in 0..count {
            for b in 0..a {
                if chance.percent(hundredths) {
                    graph.join(a, b);
                }
            }
        }
        graph
    }

    // A wall of columns and levels: each node is joined to those beside, above and below it.
    pub fn wall(columns: usize, levels: usize) -> Graph
        ensures { result.count ≡ min (columns * levels) 64 }
    {
        let mut graph = Graph::new(columns.saturating_mul(levels));
        for a in 0..graph.count {
            if a % columns.max(1) + 1 < columns {
                graph.join(a, a + 1);
            }
            graph.join(a, a.saturating_add(columns));
        }
        graph
    }
}
