// The saved form of a table of rows: reading and writing it.
#![tactic(auto)]

mod fault;
mod part;
mod read;
mod rows;
mod table;
mod write;

pub use fault::{SaveFault, TableCause, TableFault};
pub use read::read_table;
pub use table::Table;
pub use write::write_table;
