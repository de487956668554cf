ghost use Rattle.std.specs.Prelude.{◌≡◌, ℕ, ◌+◌, ◌/◌, ◌^◌, ◌<◌, ◌≤◌, length, IfSome, IfOk, OnOk};
ghost use Rattle.tables.specs.Form.{Lawful};
ghost use Rattle.tables.specs.Parts.{Anything, Exact};
ghost use Rattle.tables.specs.Taking.{end_of, Past};
ghost use Rattle.tables.specs.Written.{table_bytes};
ghost use Rattle.tables.specs.Read.{lowest_past, checked_row, checked_count, held, read_map, read_row, read_rows, table_from, read_table, seen};

use crate::fault::{TableCause, TableFault};
use crate::part::{Counts, Part};
use crate::table::Table;
use graphs::nodes;

// The lowest set bit of `n` at or past `limit`.
fn lowest_past(n: u64, limit: usize) -> Option<usize>
    ensures value { result ≡ lowest_past n limit }
    ensures near { IfSome result (λ b. b < 64) }
{
    if limit >= 64 {
        return None;
    }
    let high = n >> limit;
    if high == 0 {
        return None;
    }
    Some(limit + high.trailing_zeros() as usize)
}

fn checked_row(row: u64, at: usize, columns: usize) -> Result<u64, TableFault>
    requires { at + 8 ≤ 2 ^ 64 }
    ensures { result ≡ checked_row row at columns }
{
    if row == 0 {
        return Err(TableFault {
            cause: TableCause::ZeroRow,
            place: at,
        });
    }
    match lowest_past(row, columns) {
        Some(bit) => Err(TableFault {
            cause: TableCause::RowBit,
            place: at + bit / 8,
        }),
        None => Ok(row),
    }
}

// The next stored row.
fn read_row(part: &mut Part, columns: usize) -> Result<u64, TableFault>
    ensures value { result ≡ read_row (end_of part.old) part.old.at columns part.old.bytes.now }
    ensures past { OnOk result (Past 8 part.old part.new) }
{
    let at = part.at;
    checked_row(part.word()?, at, columns)
}

// The table whose stored rows, those that `map` names, come next; and the place behind them.
fn read_rows(mut part: Part, counts: Counts, map: u64) -> Result<(Table, usize), TableFault>
    requires { map / 2 ^ counts.rows ≡ 0 }
    ensures { seen result ≡ held counts.columns (read_rows counts.rows map counts.columns (end_of part.entry) part.entry.at part.entry.bytes.now) }
{
    let mut bits = [0; 64];
    for k in nodes(map) {
        bits[k] = read_row(&mut part, counts.columns)?;
    }
    let table = Table {
        count: counts.rows,
        columns: counts.columns,
        bits,
    };
    Ok((table, part.at))
}

// A count of rows or columns, whose byte stands at the place `at`. The error of a `TryFrom` could not carry that place.
fn checked_count(byte: u8, at: usize) -> Result<usize, TableFault>
    ensures value { result ≡ checked_count byte at }
    ensures few { IfOk result (λ n. n ≤ 64) }
{
    if byte > 64 {
        return Err(TableFault {
            cause: TableCause::TooMany,
            place: at,
        });
    }
    Ok(byte as usize)
}

// The map and the rows behind it.
fn read_map(mut part: Part, counts: Counts) -> Result<(Table, usize), TableFault>
    ensures { seen result ≡ read_map counts.rows counts.columns (end_of part.entry) part.entry.at part.entry.bytes.now }
{
    let at = part.at;
    let map = part.word()?;
    if let Some(past) = lowest_past(map, counts.rows) {
        return Err(TableFault {
            cause: TableCause::MapBit,
            place: at + past / 8,
        });
    }
    read_rows(part, counts, map)
}

// The table that comes next, and the place behind it.
fn read_part(mut part: Part) -> Result<(Table, usize), TableFault>
    ensures { seen result ≡ table_from (end_of part.entry) part.entry.at part.entry.bytes.now }
{
    let at = part.at;
    let rows = checked_count(part.byte()?, at)?;
    let columns = checked_count(part.byte()?, at + 1)?;
    read_map(part, Counts { rows, columns })
}

// The table from the place `at` on, and the place behind it. It takes the whole input, since faults tell offsets in it.
#[tactic(auto, using(crate::proofs::Tables::table_exact))]
pub fn read_table(input: &[u8], at: usize) -> Result<(Table, usize), TableFault>
    ensures value { seen result ≡ read_table input.now at }
    ensures within { IfOk result (λ p. p.1 ≤ length input.now) }
    ensures exact { Exact Lawful Anything read_table table_bytes }
{
    if at > input.len() {
        return Err(TableFault {
            cause: TableCause::Ended,
            place: input.len(),
        });
    }
    let bytes = &input[at..];
    read_part(Part { bytes, at })
}
