// Why a call declines: one enum for all reasons, one for the layers that find them, and their numbers.
#![tactic(auto)]

ghost use Rattle.std.specs.Prelude.{◌≡◌};
ghost use Rattle.refusals.specs.Numbers.{number_of, layer_of};

#[derive(Clone, Copy, PartialEq, Eq, Debug)]
pub enum Reason {
    // Units outside 1 to 24 or bays outside 1 to 64.
    Sizes = 1,
    // A unit or a bay that the plan does not have.
    OutOfRange = 2,
    // Struck already, or not struck where it should be.
    Standing = 3,
    // Not one card a unit and one a bay.
    CardCount = 4,
    // The plan is not fitted.
    NoFit = 5,
    // A source of another count than the plan's.
    OtherCount = 6,
    // There is no last answer to go on from.
    NoLastAnswer = 7,
    // The buffer has fewer bytes than there are units.
    ShortBuffer = 8,
    // No placement of the wanted sort exists.
    NoPlacement = 9,
    // A source of joints breaks a rule of sources.
    IllJoints = 10,
    // The bytes end before the part being read does.
    Ended = 11,
    // An unknown form byte, strictness byte or edition.
    Unknown = 12,
    // A table of more than 64 rows or columns.
    TooMany = 13,
    // A map bit at or past the row count.
    MapBit = 14,
    // A stored row that is zero.
    ZeroRow = 15,
    // A stored row with a bit at or past the column count.
    RowBit = 16,
    // Bytes left after a plan.
    BytesLeft = 17,
    // The buffer is shorter than what is to be written into it.
    NoRoom = 18,
}

// The number of a reason, as it is printed.
impl From<Reason> for u8 {
    ghost from_gives = { λ reason number. number ≡ number_of reason };

    fn from(reason: Reason) -> u8 {
        reason as u8
    }
}

// The layer that found what is wrong.
#[derive(Clone, Copy, PartialEq, Eq, Debug)]
pub enum Layer {
    Table = 1,
    // A look-over or a plan.
    Plan = 2,
    Job = 3,
}

// The number of a layer, as it is printed.
impl From<Layer> for u8 {
    ghost from_gives = { λ layer number. number ≡ layer_of layer };

    fn from(layer: Layer) -> u8 {
        layer as u8
    }
}

// What a refusal of reading or of a look-over tells: the reason, the layer that found it and the offset of the ill part from
// the first byte of the whole input.
#[derive(Clone, Copy, PartialEq, Eq, Debug)]
pub struct Told {
    pub reason: Reason,
    pub layer: Layer,
    pub place: usize,
}

impl Told {
    // The numbers of the reason and of the layer, and the place, as they are printed.
    pub fn numbers(self) -> (u8, u8, usize)
        ensures { result ≡ (number_of self.reason, layer_of self.layer, self.place) }
    {
        (u8::from(self.reason), u8::from(self.layer), self.place)
    }
}

#[cfg(test)]
mod tests {
    use super::*;

    // The first and the last number of each sort.
    #[test]
    fn numbers(rt: HostRuntime) {
        let first = Told {
            reason: Reason::Sizes,
            layer: Layer::Table,
            place: 7,
        };
        assert_eq!(rt; first.numbers(), (1, 1, 7));
        let last = Told {
            reason: Reason::NoRoom,
            layer: Layer::Job,
            place: 0,
        };
        assert_eq!(rt; last.numbers(), (18, 3, 0));
    }
}
