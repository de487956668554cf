ghost use Rattle.std.specs.Prelude.{◌≡◌};
ghost use Rattle.saved.specs.Told.{plan_told};
ghost use Rattle.saved.specs.declared.fault.PlanFault.TheVariants.{Table as InPlan};

use refusals::{Layer, Reason, Told};
use tables::TableFault;

// Why bytes are no saved plan. The number is the offset of the ill part from the first byte of the whole input.
#[derive(Clone, Copy, PartialEq, Eq, Debug)]
pub enum PlanFault {
    // The table of struck pairs is ill.
    Table(TableFault),
    // The bytes end before the form byte.
    Ended(usize),
    // An unknown form byte.
    Form(usize),
    // Units outside 1 to 24 or bays outside 1 to 64.
    Sizes(usize),
    // Bytes are left after the plan.
    Left(usize),
}

// A table's fault travels whole inside the plan's. Written by hand, as a derive would state no variant to a contract.
impl From<TableFault> for PlanFault {
    ghost from_gives = { λ e r. r ≡ InPlan e };

    fn from(e: TableFault) -> PlanFault {
        PlanFault::Table(e)
    }
}

// What a table's fault told, or a fault of the plan itself.
impl From<PlanFault> for Told {
    ghost from_gives = { λ fault t. t ≡ plan_told fault };

    fn from(fault: PlanFault) -> Told {
        let (reason, place) = match fault {
            PlanFault::Table(fault) => return Told::from(fault),
            PlanFault::Ended(place) => (Reason::Ended, place),
            PlanFault::Form(place) => (Reason::Unknown, place),
            PlanFault::Sizes(place) => (Reason::Sizes, place),
            PlanFault::Left(place) => (Reason::BytesLeft, place),
        };
        Told {
            reason,
            layer: Layer::Plan,
            place,
        }
    }
}
