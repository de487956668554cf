// The rows of a table.
ghost use Rattle.std.specs.Prelude.{◌≡◌, ◌%◌, ◌^◌, ◌≤◌, length};
ghost use Rattle.tables.specs.Form.{form_of, view};

use crate::table::Table;

// The bits of a row below the column count.
fn cut(row: u64, columns: usize) -> u64
    ensures { result ≡ row % 2 ^ columns }
{
    if columns < 64 {
        row % (1 << columns)
    } else {
        row
    }
}

impl Table {
    // The table of the first 64 rows and 64 columns of what is given; bits at or past the columns are left out.
    pub fn from_rows(columns: usize, rows: &[u64]) -> Table
        ensures { view result ≡ form_of columns rows.now }
    {
        let width = columns.min(64);
        let count = rows.len().min(64);
        let mut bits = [0; 64];
        for (k, row) in rows[..count].iter().enumerate() {
            bits[k] = cut(*row, width);
        }
        Table {
            count,
            columns: width,
            bits,
        }
    }

    pub fn columns(&self) -> usize
        ensures { result ≡ (view self.now).columns }
    {
        self.columns
    }

    pub fn rows(&self) -> &[u64]
        ensures value { result.now ≡ (view self.now).rows }
        ensures few { length result.now ≤ 64 }
    {
        &self.bits[0..self.count]
    }
}
