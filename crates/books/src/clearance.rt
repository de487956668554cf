// The clearance book: a unit asks for a clear height by its kind.
ghost use Rattle.std.specs.Prelude.{◌≡◌, ℕ, List};
ghost use Rattle.books.specs.Clearance.{figure_of, figures_one, figures_two, reach_of, clears};

use crate::Book;

// What kind a unit is. Kinds past the figures are no fault: they suit no bay.
#[derive(Clone, Copy, PartialEq, Debug)]
pub struct KindCard {
    pub kind: u8,
}

// A bay's clear height in mm.
#[derive(Clone, Copy, PartialEq, Debug)]
pub struct HeightCard {
    pub height: u16,
}

impl HeightCard {
    // How high a unit may reach here; the books read the card only through this.
    pub fn reach(&self) -> u16
        ensures { result ≡ reach_of self.now }
    {
        self.height
    }
}

const FIGURES_ONE: [u16; 8] = [0, 600, 1300, 650, 450, 900, 0, 300];

const FIGURES_TWO: [u16; 8] = [0, 600, 1300, 750, 450, 900, 0, 300];

// The figure for a kind.
fn figure(figures: &[u16; 8], kind: u8) -> Option<u16>
    ensures { result ≡ figure_of figures.now kind }
{
    figures.get(usize::from(kind)).copied()
}

// Whether the bay is as high as the unit's kind asks for.
fn clear(figures: &[u16; 8], unit: &KindCard, bay: &HeightCard) -> bool
    ensures { result ≡ clears figures.now unit.now bay.now }
{
    figure(figures, unit.kind).is_some_and(|height| height <= bay.reach())
}

// An edition of the clearance book. No other crate can name the trait, so there are these two editions alone.
pub trait ClearanceEdition {
    // What the book gives as its edition.
    const NUMBER: u16;

    // The figures in mm by kind: base, wall, tall, hob, sink, oven housing, corner, shelf.
    const FIGURES: [u16; 8];

    // Both constants, for contracts.
    ghost NUMBER: { ℕ };

    ghost FIGURES: { List ℕ };

    // The figures where they lie. By `&E::FIGURES` in a generic function they were copied for each pair of cards, and a fit took
    // a third longer.
    fn all_figures(&self) -> &'static [u16; 8]
        ensures { result.now ≡ FIGURES };
}

#[derive(Clone, Copy)]
pub struct EditionOne;

impl ClearanceEdition for EditionOne {
    const NUMBER: u16 = 1;

    const FIGURES: [u16; 8] = FIGURES_ONE;

    ghost NUMBER = { 1 };

    ghost FIGURES = { figures_one };

    fn all_figures(&self) -> &'static [u16; 8] {
        &FIGURES_ONE
    }
}

#[derive(Clone, Copy)]
pub struct EditionTwo;

impl ClearanceEdition for EditionTwo {
    const NUMBER: u16 = 2;

    const FIGURES: [u16; 8] = FIGURES_TWO;

    ghost NUMBER = { 2 };

    ghost FIGURES = { figures_two };

    fn all_figures(&self) -> &'static [u16; 8] {
        &FIGURES_TWO
    }
}

// The clearance book of an edition.
#[derive(Clone, Copy)]
pub struct Clearance<E>(pub E);

impl<E: ClearanceEdition> Book for Clearance<E> {
    type UnitCard = KindCard;

    type BayCard = HeightCard;

    const EDITION: u16 = E::NUMBER;

    ghost EDITION = { E.NUMBER };

    ghost suiting = { λ book. clears E.FIGURES };

    fn suits(&self, unit: &KindCard, bay: &HeightCard) -> bool {
        clear(self.0.all_figures(), unit, bay)
    }
}
