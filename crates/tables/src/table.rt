// A table of at most 64 rows of at most 64 columns. The rows lie in an array of fixed length, and no `ArrayVec`: a table is copied, and
// the zeros behind its rows make equal tables equal bit by bit.
ghost use Rattle.std.specs.Prelude.{◌≤◌};
ghost use Rattle.tables.specs.Shape.{Inside, Blank};

#[derive(Clone, Copy, PartialEq, Eq, Debug)]
pub struct Table {
    pub(crate) count: usize,
    pub(crate) columns: usize,
    pub(crate) bits: [u64; 64],
    ghost few_rows: { count ≤ 64 },
    ghost few_columns: { columns ≤ 64 },
    ghost inside: { Inside columns bits },
    ghost blank: { Blank count bits },
}
