ghost use Rattle.std.specs.Prelude.{◌≡◌};
ghost use Rattle.jobs.specs.Told.{job_told};
ghost use Rattle.jobs.specs.declared.fault.JobFault.TheVariants.{Table as InTable, Plan as InPlan};

use refusals::{Layer, Reason, Told};
use saved::PlanFault;
use sources::JointFault;
use tables::TableFault;

// Why bytes are no job. The number is the offset of the ill part from the first byte of the whole input.
#[derive(Clone, Copy, PartialEq, Eq, Debug)]
pub enum JobFault {
    // The table of the arrangement or of the room is ill.
    Table(TableFault),
    // The saved plan is ill.
    Plan(PlanFault),
    // The arrangement or the room breaks a rule of sources.
    Joints(JointFault),
    // The bytes end before the part being read does.
    Ended(usize),
    // An unknown strictness byte or edition.
    Unknown(usize),
    // A plan of other sizes than the tables'.
    Unequal(usize),
}

// A table's fault travels whole inside the job's. Written by hand, as a derive would state no variant to a contract.
impl From<TableFault> for JobFault {
    ghost from_gives = { λ e r. r ≡ InTable e };

    fn from(e: TableFault) -> JobFault {
        JobFault::Table(e)
    }
}

// And so does a plan's, with the table's inside it; by hand likewise.
impl From<PlanFault> for JobFault {
    ghost from_gives = { λ e r. r ≡ InPlan e };

    fn from(e: PlanFault) -> JobFault {
        JobFault::Plan(e)
    }
}

// What the fault of a table, a plan or a source told, or a fault of the job itself.
impl From<JobFault> for Told {
    ghost from_gives = { λ fault t. t ≡ job_told fault };

    fn from(fault: JobFault) -> Told {
        let (reason, place) = match fault {
            JobFault::Table(fault) => return Told::from(fault),
            JobFault::Plan(fault) => return Told::from(fault),
            JobFault::Joints(fault) => return Told::from(fault),
            JobFault::Ended(place) => (Reason::Ended, place),
            JobFault::Unknown(place) => (Reason::Unknown, place),
            JobFault::Unequal(place) => (Reason::OtherCount, place),
        };
        Told {
            reason,
            layer: Layer::Job,
            place,
        }
    }
}
