ghost use Rattle.std.specs.Prelude.{◌≡◌};
ghost use Rattle.plans.specs.Refused.{reason_of, save_refusal};

use refusals::Reason;
use tables::SaveFault;

// Why a call of a plan declines.
#[derive(Clone, Copy, PartialEq, Eq, Debug)]
pub enum Refusal {
    // Units outside 1 to 24 or bays outside 1 to 64.
    Sizes,
    // A unit or a bay that the plan does not have.
    OutOfRange,
    // Struck already, or not struck where it should be.
    Standing,
    // Not one card a unit and one a bay.
    CardCount,
    // The plan is not fitted.
    NoFit,
    // A source of another count than the plan's.
    OtherCount,
    // There is no last answer to go on from.
    NoLastAnswer,
    // The buffer has fewer bytes than there are units.
    ShortBuffer,
    // No placement of the wanted sort exists, after so many tries.
    NoPlacement(u32),
    // The buffer is shorter than the saved form.
    NoRoom,
}

impl From<Refusal> for Reason {
    ghost from_gives = { λ e r. r ≡ reason_of e };

    fn from(refusal: Refusal) -> Reason {
        match refusal {
            Refusal::Sizes => Reason::Sizes,
            Refusal::OutOfRange => Reason::OutOfRange,
            Refusal::Standing => Reason::Standing,
            Refusal::CardCount => Reason::CardCount,
            Refusal::NoFit => Reason::NoFit,
            Refusal::OtherCount => Reason::OtherCount,
            Refusal::NoLastAnswer => Reason::NoLastAnswer,
            Refusal::ShortBuffer => Reason::ShortBuffer,
            Refusal::NoPlacement(_) => Reason::NoPlacement,
            Refusal::NoRoom => Reason::NoRoom,
        }
    }
}

impl From<SaveFault> for Refusal {
    ghost from_gives = { λ fault refusal. refusal ≡ save_refusal fault };

    fn from(fault: SaveFault) -> Refusal {
        match fault {
            SaveFault::Short => Refusal::NoRoom,
        }
    }
}

#[cfg(test)]
mod tests {
    use super::*;

    // The reasons of a plan without a fit and of a search that finds nothing.
    #[test]
    fn reasons(rt: HostRuntime) {
        assert_eq!(rt; Reason::from(Refusal::NoFit), Reason::NoFit);
        assert_eq!(rt; Reason::from(Refusal::NoPlacement(7)), Reason::NoPlacement);
    }

    #[test]
    fn short_of_the_form(rt: HostRuntime) {
        assert_eq!(rt; Refusal::from(SaveFault::Short), Refusal::NoRoom);
    }
}
