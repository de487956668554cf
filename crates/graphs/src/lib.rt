// Rows as sets of bays, and graphs of joints by what they answer.
#![tactic(auto)]

pub mod pairs;
#[cfg(test)]
mod tests;

ghost use Rattle.std.specs.Prelude.{◌≡◌, ℕ, ◌<◌, ◌≤◌, ◌^◌, Bool, ◌&&◌, ◌||◌, ◌==◌, nat_lt};
ghost use Rattle.graphs.specs.Rows.{bit, row_of};
ghost use Rattle.graphs.specs.Nodes.{nodes_of};
ghost use Rattle.graphs.specs.Graph.{Graph, Sound, Symmetric};
ghost use Rattle.std.specs.Iterator.{YieldsFirst, item_count};

// Whether the row holds the bay `b`.
pub fn holds(row: u64, b: usize) -> bool
    ensures { result ≡ bit row b }
{
    b < 64 && (row >> b) % 2 == 1
}

// The row with the node `b` too, where it is wanted and one of the 64.
pub fn with_node(row: u64, wanted: bool, b: usize) -> u64
    ensures { (k : ℕ) → bit result k ≡ (bit row k || (wanted && (nat_lt b 64 && b == k))) }
{
    if wanted && b < 64 {
        row | (1 << b)
    } else {
        row
    }
}

// The nodes of a row that are still to come, lowest first.
#[derive(Drop)]
pub struct RowNodes {
    rest: u64,
    ghost fits: { rest < 2 ^ 64 },
}

// The nodes that the row holds, lowest first.
pub fn nodes(row: u64) -> RowNodes
    ensures { result.rest ≡ row }
{
    RowNodes { rest: row }
}

impl Iterator for RowNodes {
    type Item = usize;

    ghost next_gives = { YieldsFirst (λ s. nodes_of s.rest) };

    ghost remaining = { item_count (λ s. nodes_of s.rest) };

    fn next(&mut self) -> Option<usize> {
        if self.rest == 0 {
            return None;
        }
        let lowest = self.rest.trailing_zeros() as usize;
        self.rest &= self.rest - 1;
        Some(lowest)
    }
}

// A source of joints: how many nodes there are, and which node is joined to which.
pub trait Source {
    // What the source means.
    ghost graph: { Self → Graph };

    // What everything above the sources rests on.
    ghost sound: { (s : Self) → Sound (graph s) };

    // Joints hold both ways.
    ghost symmetric: { (s : Self) → Symmetric (graph s) };

    fn count(&self) -> usize
        ensures { result ≡ (graph self.now).count };

    fn joined(&self, a: usize, b: usize) -> bool
        ensures { result ≡ (graph self.now).joined a b };

    // The nodes that `a` is joined to.
    fn row(&self, a: usize) -> u64
        ensures { result ≡ row_of (graph self.now).count (λ b. (graph self.now).joined a b) }
    {
        row_where(self.count(), |b| self.joined(a, b))
    }

    // The nodes that are joined to `b`.
    fn column(&self, b: usize) -> u64
        ensures { result ≡ row_of (graph self.now).count (λ a. (graph self.now).joined a b) }
    {
        row_where(self.count(), |a| self.joined(a, b))
    }
}

// The nodes below `count` that pass the test.
fn row_where<P: Fn(usize) -> bool>(count: usize, passes: P) -> u64
    requires few { count ≤ 64 }
    requires can { P.IsAlwaysCallable passes }
    ensures { (p : ℕ → Bool) → ((b : ℕ) (t : Bool) → b < count → P.post passes b t → t ≡ p b) → result ≡ row_of count p }
{
    let mut row: u64 = 0;
    // `(0..count).filter(|b| passes(*b)).fold(0, |row, b| row | 1 << b)` says this by two closures more: no plainer.
    for b in 0..count {
        if passes(b) {
            row |= 1 << b;
        }
    }
    row
}
