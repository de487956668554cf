// Jobs: reading what a listing is asked for from its bytes.
#![tactic(auto)]

mod cards;
mod fault;
mod head;
mod job;
mod read;

pub use fault::JobFault;
pub use head::{Edition, Mode, Unknown};
pub use job::Job;
pub use read::read_job;
