// The job call: reads a job's bytes and writes the text that lists its placements.
#![tactic(auto)]

mod call;
mod lawful;
mod list;
mod plan;
mod put;

pub use call::planbench_job;
