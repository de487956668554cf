ghost use Rattle.std.specs.Prelude.{◌≡◌, ℕ, ◌+◌, ◌-◌, ◌*◌, ◌<◌, ◌≤◌, ◌==◌, not, count_by, length, take, IfOk, Ok};
ghost use Rattle.text.specs.Lay.{lay};
ghost use Rattle.tables.specs.Bytes.{bytes_of};
ghost use Rattle.tables.specs.Form.{view};
ghost use Rattle.tables.specs.Read.{read_table};
ghost use Rattle.tables.specs.Written.{map_of, rows_bytes, table_bytes, stored};
ghost use Rattle.tables.specs.Saved.{Saved};

use crate::fault::SaveFault;
use crate::table::Table;

// Bit k says that row k is not zero.
fn map_of(rows: &[u64]) -> u64
    requires { length rows.now ≤ 64 }
    ensures { result ≡ map_of rows.now }
{
    let mut map = 0u64;
    for (k, row) in rows.iter().enumerate() {
        if *row != 0 {
            map += 1 << k;
        }
    }
    map
}

// How many bytes the stored rows take.
fn rows_len(rows: &[u64]) -> usize
    requires { length rows.now ≤ 64 }
    ensures value { result ≡ 8 * count_by (λ row. not (row == 0)) rows.now }
    ensures near { result ≤ 512 }
{
    8 * rows.iter().filter(|row| **row != 0).count()
}

// Writes the rows that are not zero from the place `at` on, and answers the place behind them. `text::Text` tests the room at each
// put; here it is tested once, before the first byte, so each put would have a refusal that never comes.
fn put_rows(out: &mut [u8], at: usize, rows: &[u64]) -> usize
    requires { at + length (rows_bytes rows.now) ≤ length out.old }
    ensures place { result ≡ at + length (rows_bytes rows.now) }
    ensures after { out.new ≡ lay out.old at (rows_bytes rows.now) }
{
    let mut next = at;
    for row in rows {
        if *row != 0 {
            out[next..next + 8].copy_from_slice(&row.to_le_bytes());
            next += 8;
        }
    }
    next
}

// Writes the saved form of a table into the buffer, and answers its length; declines where the buffer is shorter.
pub fn write_table(table: &Table, out: &mut [u8]) -> Result<usize, SaveFault>
    ensures saved { Saved (table_bytes (view table.now)) out.old out.new result }
    ensures back { IfOk result (λ n. read_table (take n out.new) 0 ≡ Ok (view table.now, n)) }
    ensures size { length (table_bytes (view table.now)) ≡ 10 + 8 * stored (view table.now).rows }
{
    let rows = table.rows();
    if out.len() < 10 + rows_len(rows) {
        return Err(SaveFault::Short);
    }
    out[0] = rows.len() as u8;
    out[1] = table.columns as u8;
    out[2..10].copy_from_slice(&map_of(rows).to_le_bytes());
    Ok(put_rows(out, 10, rows))
}
