// Rows that are written out once, so that a search reads a node's row with no look at how many there are. They lie in arrays of 64,
// since the library has no heap.
ghost use Rattle.std.specs.Prelude.{◌≡◌, slice_index};

// The row at `a`, empty past the last one.
pub fn row_at(rows: &[u64], a: usize) -> u64
    ensures { result ≡ slice_index rows.now a }
{
    rows.get(a).copied().unwrap_or(0)
}
