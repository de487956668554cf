ghost use Rattle.std.specs.Prelude.{◌≡◌};
ghost use Rattle.tables.specs.Told.{table_told, save_reason};

use refusals::{Layer, Reason, Told};

// Why bytes are no table.
#[derive(Clone, Copy, PartialEq, Eq, Debug)]
pub enum TableCause {
    // The bytes end before the part being read does.
    Ended,
    // More than 64 rows or columns.
    TooMany,
    // A map bit at or past the row count.
    MapBit,
    // A stored row that is zero.
    ZeroRow,
    // A stored row with a bit at or past the column count.
    RowBit,
}

// A cause, and the offset of the ill part from the first byte of the whole input.
#[derive(Clone, Copy, PartialEq, Eq, Debug)]
pub struct TableFault {
    pub cause: TableCause,
    pub place: usize,
}

impl From<TableFault> for Told {
    ghost from_gives = { λ fault t. t ≡ table_told fault };

    fn from(fault: TableFault) -> Told {
        let reason = match fault.cause {
            TableCause::Ended => Reason::Ended,
            TableCause::TooMany => Reason::TooMany,
            TableCause::MapBit => Reason::MapBit,
            TableCause::ZeroRow => Reason::ZeroRow,
            TableCause::RowBit => Reason::RowBit,
        };
        Told {
            reason,
            layer: Layer::Table,
            place: fault.place,
        }
    }
}

// Why a form was not written.
#[derive(Clone, Copy, PartialEq, Eq, Debug)]
pub enum SaveFault {
    // The buffer is shorter than the form.
    Short,
}

impl From<SaveFault> for Reason {
    ghost from_gives = { λ fault reason. reason ≡ save_reason fault };

    fn from(fault: SaveFault) -> Reason {
        match fault {
            SaveFault::Short => Reason::NoRoom,
        }
    }
}
