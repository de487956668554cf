// The services book: a unit needs water, drain, gas, power or extract where it stands.
ghost use Rattle.books.specs.Services.{serves};

use crate::Book;

// What a unit needs, a bit each: water, drain, gas, power, extract from the lowest, and three bits to spare.
#[derive(Clone, Copy, PartialEq, Debug)]
pub struct NeedsCard {
    pub needs: u8,
}

// What a bay has, in the same bits.
#[derive(Clone, Copy, PartialEq, Debug)]
pub struct ServicesCard {
    pub services: u8,
}

#[derive(Clone, Copy)]
pub struct ServicesOne;

impl Book for ServicesOne {
    type UnitCard = NeedsCard;

    type BayCard = ServicesCard;

    const EDITION: u16 = 1;

    ghost EDITION = { 1 };

    ghost suiting = { λ book. serves };

    fn suits(&self, unit: &NeedsCard, bay: &ServicesCard) -> bool {
        unit.needs & bay.services == unit.needs
    }
}
