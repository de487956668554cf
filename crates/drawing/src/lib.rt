// Numbers that look random, and the graphs, rows and cases that are drawn by them.
#![tactic(auto)]

mod case;
mod chance;
mod graph;

pub use case::Case;
pub use chance::Chance;
pub use graph::Graph;

#[cfg(test)]
mod tests;
