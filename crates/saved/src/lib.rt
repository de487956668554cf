// The saved form of a plan: reading and writing it.
#![tactic(auto)]

mod fault;
mod read;
mod write;

pub use fault::PlanFault;
pub use read::read_plan;
pub use write::save_plan;

// The form byte of a saved plan.
const FORM: u8 = 2;
