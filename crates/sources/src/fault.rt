// Why a source of joints is declined.
ghost use Rattle.std.specs.Prelude.{◌≡◌};
ghost use Rattle.sources.specs.Faults.{joint_told};

use refusals::{Layer, Reason, Told};

// For now the place alone; the rule that is broken and its nodes can stand beside it.
#[derive(Clone, Copy, PartialEq, Eq, Debug)]
pub struct JointFault {
    // The offset of the source from the first byte of the whole input, 0 for a direct look-over.
    pub place: usize,
}

impl From<JointFault> for Told {
    ghost from_gives = { λ fault t. t ≡ joint_told fault };

    fn from(fault: JointFault) -> Told {
        Told {
            reason: Reason::IllJoints,
            layer: Layer::Plan,
            place: fault.place,
        }
    }
}
