// Plans: the ten calls and save, each with what it does to the plan's record, and the law over whole runs.
#![tactic(auto)]

mod guard;
pub mod plan;
pub mod refusal;
