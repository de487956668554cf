// The bytes of an input that are not read yet, and the place of the first of them.
ghost use Rattle.std.specs.Prelude.{◌+◌, ◌^◌, ◌<◌, ◌≤◌, length};

use crate::fault::{TableCause, TableFault};

#[derive(Clone, Copy)]
pub(crate) struct Part<'a> {
    pub(crate) bytes: &'a [u8],
    pub(crate) at: usize,
    ghost room: { at + length bytes.now < 2 ^ 64 },
}

impl<'a> Part<'a> {
    ghost use Rattle.std.specs.Prelude.{◌≡◌, OnOk};
    ghost use Rattle.tables.specs.Taking.{end_of, ended, next_byte, next_word, Past};

    // What is told where the bytes end before what is read from them does.
    fn ended(&self) -> TableFault
        ensures { result ≡ ended (end_of self.now) }
    {
        TableFault {
            cause: TableCause::Ended,
            place: self.at + self.bytes.len(),
        }
    }

    pub(crate) fn byte(&mut self) -> Result<u8, TableFault>
        ensures value { result ≡ next_byte (end_of self.old) self.old.bytes.now }
        ensures past { OnOk result (Past 1 self.old self.new) }
    {
        let [byte, rest @ ..] = self.bytes else {
            return Err(self.ended());
        };
        *self = Part {
            bytes: rest,
            at: self.at + 1,
        };
        Ok(*byte)
    }

    // The number that the next eight bytes write, lowest first.
    pub(crate) fn word(&mut self) -> Result<u64, TableFault>
        ensures value { result ≡ next_word (end_of self.old) self.old.bytes.now }
        ensures past { OnOk result (Past 8 self.old self.new) }
    {
        let [b0, b1, b2, b3, b4, b5, b6, b7, rest @ ..] = self.bytes else {
            return Err(self.ended());
        };
        *self = Part {
            bytes: rest,
            at: self.at + 8,
        };
        Ok(u64::from_le_bytes([*b0, *b1, *b2, *b3, *b4, *b5, *b6, *b7]))
    }
}

// How many rows and columns a table has.
#[derive(Clone, Copy)]
pub(crate) struct Counts {
    pub(crate) rows: usize,
    pub(crate) columns: usize,
    ghost few_rows: { rows ≤ 64 },
    ghost few_columns: { columns ≤ 64 },
}
