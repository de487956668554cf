// A table of joints over the caller's rows, one a node.
ghost use Rattle.std.specs.Prelude.{◌≡◌, ℕ, ◌<◌, ◌≤◌, false, length, slice_index};
ghost use Rattle.graphs.specs.Rows.{bit, row_of};
ghost use Rattle.graphs.specs.JointTable.{table_graph, TableLawful};
ghost use Rattle.graphs.proofs.JointTables.{table_sound, table_symmetric};
ghost use Rattle.sources.specs.Faults.{LookedOver};
ghost use Rattle.sources.specs.Pairs.{PairLawful, PairsLawful};
ghost use Rattle.sources.specs.Taking.{Taken};
ghost use Rattle.sources.specs.Drawn.{Written};

use crate::drawn::row_at;
use crate::fault::JointFault;
use graphs::{Source, holds, nodes};

#[derive(Clone, Copy)]
pub struct JointTable<'a> {
    rows: &'a [u64],
    drawn: [u64; 64],
    ghost some: { 1 ≤ length rows.now },
    ghost few: { length rows.now ≤ 64 },
    ghost irreflexive: { (a : ℕ) → bit (slice_index rows.now a) a ≡ false },
    ghost mutual: { (a b : ℕ) → bit (slice_index rows.now a) b ≡ bit (slice_index rows.now b) a },
    ghost written: { Written rows.now drawn },
}

impl<'a> JointTable<'a> {
    pub fn look_over(rows: &[u64], columns: usize) -> Result<(), JointFault>
        ensures { LookedOver result (TableLawful rows.now columns) }
    {
        if rows.len() != columns || columns < 1 || columns > 64 {
            return Err(JointFault { place: 0 });
        }
        // By number, since the look-over of a row asks after the rows of other nodes.
        for a in 0..columns {
            look_over_row(rows, a)?;
        }
        Ok(())
    }

    // What the look-over declines is taken as one node without joints.
    pub fn new(rows: &'a [u64], columns: usize) -> JointTable<'a>
        ensures { Taken (TableLawful rows.now columns) (table_graph rows.now) (⟦<JointTable<'a> as Source>⟧.graph result) }
    {
        let rows = match JointTable::look_over(rows, columns) {
            Ok(()) => rows,
            Err(_) => &[0],
        };
        JointTable {
            rows,
            drawn: written_out(rows),
        }
    }
}

impl<'a> Source for JointTable<'a> {
    ghost graph = { λ s. table_graph s.rows.now };

    ghost sound = { λ s. table_sound s.rows.now s.some s.few s.irreflexive s.mutual };

    ghost symmetric = { λ s. table_symmetric s.rows.now s.mutual };

    fn count(&self) -> usize {
        self.rows.len()
    }

    fn joined(&self, a: usize, b: usize) -> bool {
        holds(row_at(&self.drawn, a), b)
    }

    fn row(&self, a: usize) -> u64 {
        row_at(&self.drawn, a)
    }

    // Joints hold both ways.
    fn column(&self, b: usize) -> u64 {
        row_at(&self.drawn, b)
    }
}

// The rows, and empty ones behind.
fn written_out(rows: &[u64]) -> [u64; 64]
    requires { length rows.now ≤ 64 }
    ensures { Written rows.now result }
{
    let mut drawn = [0; 64];
    drawn[..rows.len()].copy_from_slice(rows);
    drawn
}

// Every joint of the node `a` in turn: a one-sided one is met at the bit that is set.
fn look_over_row(rows: &[u64], a: usize) -> Result<(), JointFault>
    requires { a < length rows.now }
    ensures { LookedOver result (PairsLawful rows.now a) }
{
    for b in nodes(rows[a]) {
        look_over_pair(rows, a, b)?;
    }
    Ok(())
}

// Whether row `a` may hold `b`.
fn look_over_pair(rows: &[u64], a: usize, b: usize) -> Result<(), JointFault>
    ensures { LookedOver result (PairLawful rows.now a b) }
{
    if b < rows.len() && b != a && holds(rows[b], a) {
        Ok(())
    } else {
        Err(JointFault { place: 0 })
    }
}
