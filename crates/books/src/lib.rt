// Rule books: which unit card suits which bay card, and the rows of the pairs that suit.
#![tactic(auto)]

ghost use Rattle.std.specs.Prelude.{◌≡◌, ℕ, Bool, ◌&&◌, nat_lt};
ghost use Rattle.graphs.specs.Rows.{pairs};
ghost use Rattle.books.specs.Fit.{handed};

mod clearance;
mod services;

pub use clearance::{Clearance, EditionOne, EditionTwo, HeightCard, KindCard};
pub use services::{NeedsCard, ServicesCard, ServicesOne};

// A rule book: its own unit card, its own bay card and its edition.
pub trait Book {
    type UnitCard;

    type BayCard;

    // A number, as a book knows nothing of jobs, whose enum names the editions of the clearance book alone.
    const EDITION: u16;

    // The same, for contracts.
    ghost EDITION: { ℕ };

    // What the book means: which unit card suits which bay card. Asked twice it says the same.
    ghost suiting: { Self → Self.UnitCard → Self.BayCard → Bool };

    fn suits(&self, unit: &Self::UnitCard, bay: &Self::BayCard) -> bool
        ensures { result ≡ suiting self.now unit.now bay.now };

    // The constant, where the book is at hand as a value.
    fn edition_number(&self) -> u16
        ensures { result ≡ EDITION }
    {
        Self::EDITION
    }
}

// The rows of the pairs whose cards suit by the book: of the first 24 unit cards and the first 64 bay cards. A struct of a book and
// its cards would be made for this one call, and taken apart in it.
pub fn suited_rows<B: Book>(book: &B, units: &[B::UnitCard], bays: &[B::BayCard]) -> [u64; 24]
    ensures { (u b : ℕ) → pairs result u b ≡ (nat_lt u 24 && (nat_lt b 64 && (handed (B.Book.suiting book.now) units.now bays.now).suits u b)) }
{
    let units = &units[..units.len().min(24)];
    let bays = &bays[..bays.len().min(64)];
    let mut rows = [0; 24];
    for (u, unit) in units.iter().enumerate() {
        let mut row = 0;
        for (b, bay) in bays.iter().enumerate() {
            if book.suits(unit, bay) {
                row |= 1 << b;
            }
        }
        rows[u] = row;
    }
    rows
}

#[cfg(test)]
mod tests;
