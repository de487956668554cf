// The two sources of joints: a table over lent rows, and a wall grid.
#![tactic(auto)]

mod drawn;
mod fault;
mod table;
#[cfg(test)]
mod tests;
mod wall;

pub use fault::JointFault;
pub use table::JointTable;
pub use wall::WallGrid;
