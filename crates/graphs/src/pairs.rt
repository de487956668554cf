// Tables of 24 rows as sets of pairs of a unit and a bay.
ghost use Rattle.std.specs.Prelude.{◌≡◌, ℕ, not, ◌&&◌, sum_by, count_ones};
ghost use Rattle.graphs.specs.Rows.{pairs};

use std::array;

// The pairs of one table that are not in the other.
pub fn without(rows: &[u64; 24], other: &[u64; 24]) -> [u64; 24]
    ensures { (u b : ℕ) → pairs result u b ≡ (pairs rows.now u b && not (pairs other.now u b)) }
{
    array::from_fn(|u| rows[u] & !other[u])
}

// The pairs that both tables have.
pub fn common(rows: &[u64; 24], other: &[u64; 24]) -> [u64; 24]
    ensures { (u b : ℕ) → pairs result u b ≡ (pairs rows.now u b && pairs other.now u b) }
{
    array::from_fn(|u| rows[u] & other[u])
}

// How many pairs a table has.
pub fn total(rows: &[u64; 24]) -> usize
    ensures { result ≡ sum_by count_ones rows.now }
{
    rows.iter().map(|row| row.count_ones() as usize).sum()
}
