// What opens a job: the sort of use, and the edition of the clearance book.
ghost use Rattle.std.specs.Prelude.{◌≡◌};
ghost use Rattle.jobs.specs.Head.{is_strict, ModeOf, EditionOf};

// A number that stands for no sort of use, or for no edition.
#[derive(Clone, Copy, PartialEq, Eq, Debug)]
pub struct Unknown;

#[derive(Clone, Copy, PartialEq, Eq, Debug)]
pub enum Mode {
    // Joined units stand on joined bays.
    Open,
    // And units that are not joined on bays that are not joined.
    Strict,
}

impl Mode {
    pub fn is_strict(self) -> bool
        ensures { result ≡ is_strict self }
    {
        match self {
            Mode::Open => false,
            Mode::Strict => true,
        }
    }
}

// Each `TryFrom` has numbers of its own, in a byte here and in two bytes below: a generic one would take all of them as parameters.
impl TryFrom<u8> for Mode {
    type Error = Unknown;

    ghost try_from_gives = { ModeOf };

    fn try_from(byte: u8) -> Result<Mode, Unknown> {
        match byte {
            0 => Ok(Mode::Open),
            1 => Ok(Mode::Strict),
            _ => Err(Unknown),
        }
    }
}

#[derive(Clone, Copy, PartialEq, Eq, Debug)]
pub enum Edition {
    One,
    Two,
}

impl TryFrom<u16> for Edition {
    type Error = Unknown;

    ghost try_from_gives = { EditionOf };

    fn try_from(number: u16) -> Result<Edition, Unknown> {
        match number {
            1 => Ok(Edition::One),
            2 => Ok(Edition::Two),
            _ => Err(Unknown),
        }
    }
}
