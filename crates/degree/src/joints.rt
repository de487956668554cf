// Degrees of nodes, and rows of the nodes by their degrees.
ghost use Rattle.std.specs.Prelude.{◌≡◌, ℕ, ◌+◌, ◌<◌, nat_eq, slice_index};
ghost use Rattle.graphs.specs.Rows.{bit, row_of};
ghost use Rattle.degree.specs.Degree.{all_nodes, degree_within, ByDegree};

use graphs::Source;

// How many nodes of the set `within` the node is joined to.
pub fn joint_count<S: Source>(source: &S, within: u64, node: usize) -> usize
    ensures { result ≡ degree_within (S.Source.graph source.now) (bit within) node }
{
    (source.row(node) & within).count_ones() as usize
}

// How many nodes the node is joined to.
pub(crate) fn degree_of<S: Source>(source: &S, node: usize) -> usize
    ensures degree { result ≡ degree_within (S.Source.graph source.now) all_nodes node }
    ensures below { result < (S.Source.graph source.now).count }
{
    joint_count(source, u64::MAX, node)
}

// For each k from 1 to 64, the nodes with exactly k - 1 joints.
fn with_joints<S: Source>(source: &S) -> [u64; 65]
    ensures { (k : ℕ) → k < 65 → slice_index result k ≡ row_of (S.Source.graph source.now).count (λ b. nat_eq (degree_within (S.Source.graph source.now) all_nodes b + 1) k) }
{
    let mut rows = [0u64; 65];
    // A source has nodes by number, and no slice to go over.
    for b in 0..source.count() {
        rows[degree_of(source, b) + 1] |= 1 << b;
    }
    rows
}

// For each k up to 64, the nodes with fewer than k joints.
pub(crate) fn with_fewer<S: Source>(source: &S) -> [u64; 65]
    ensures { ByDegree (S.Source.graph source.now) result }
{
    let mut rows = with_joints(source);
    let mut fewer = 0;
    for row in rows.iter_mut() {
        fewer |= *row;
        *row = fewer;
    }
    rows
}
