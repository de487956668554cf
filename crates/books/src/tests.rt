// Each figure and service at its edge, and what the generic clearance book says of each edition.
ghost use Rattle.std.specs.Prelude.{◌≡◌};
ghost use Rattle.books.specs.Clearance.{figures_one, figures_two, clears};

use crate::{
    Book, Clearance, EditionOne, EditionTwo, HeightCard, KindCard, NeedsCard, ServicesCard,
    ServicesOne, suited_rows,
};

// What the generic book says of each edition.
fn suits_by_one(unit: &KindCard, bay: &HeightCard) -> bool
    ensures { result ≡ clears figures_one unit.now bay.now }
{
    Clearance(EditionOne).suits(unit, bay)
}

fn suits_by_two(unit: &KindCard, bay: &HeightCard) -> bool
    ensures { result ≡ clears figures_two unit.now bay.now }
{
    Clearance(EditionTwo).suits(unit, bay)
}

fn edition_numbers() -> (u16, u16)
    ensures one { result.0 ≡ 1 }
    ensures two { result.1 ≡ 2 }
{
    (
        Clearance(EditionOne).edition_number(),
        Clearance(EditionTwo).edition_number(),
    )
}

// Each figure at its edge by edition 1 and by edition 2, and kinds that have no figure.
#[test]
fn figures(rt: HostRuntime) {
    let edges = [
        (0, 0, true, true),
        (1, 599, false, false),
        (1, 600, true, true),
        (2, 1299, false, false),
        (2, 1300, true, true),
        (3, 649, false, false),
        (3, 650, true, false),
        (3, 749, true, false),
        (3, 750, true, true),
        (4, 449, false, false),
        (4, 450, true, true),
        (5, 899, false, false),
        (5, 900, true, true),
        (6, 0, true, true),
        (7, 299, false, false),
        (7, 300, true, true),
        (8, 65535, false, false),
        (255, 65535, false, false),
    ];
    for (kind, height, one, two) in edges {
        let unit = KindCard { kind };
        let bay = HeightCard { height };
        assert_eq!(rt; suits_by_one(&unit, &bay), one);
        assert_eq!(rt; suits_by_two(&unit, &bay), two);
    }
}

#[test]
fn editions(rt: HostRuntime) {
    assert_eq!(rt; edition_numbers(), (1, 2));
    assert_eq!(rt; ServicesOne.edition_number(), 1);
}

// All eight bits count.
#[test]
fn every_needed_bit(rt: HostRuntime) {
    let asked = [
        (0, 0, true),
        (5, 4, false),
        (5, 13, true),
        (16, 16, true),
        (32, 223, false),
        (64, 191, false),
        (128, 127, false),
        (255, 255, true),
    ];
    for (needs, services, suits) in asked {
        assert_eq!(rt;
            ServicesOne.suits(&NeedsCard { needs }, &ServicesCard { services }),
            suits
        );
    }
}

// A wall unit and a hob over bays of 600, 700 and 300 mm.
#[test]
fn two_by_three(rt: HostRuntime) {
    let units = [KindCard { kind: 1 }, KindCard { kind: 3 }];
    let bays = [
        HeightCard { height: 600 },
        HeightCard { height: 700 },
        HeightCard { height: 300 },
    ];
    let rows = suited_rows(&Clearance(EditionOne), &units, &bays);
    assert_eq!(rt; rows[0], 3);
    assert_eq!(rt; rows[1], 2);
    assert_eq!(rt; rows[2], 0);
    assert_eq!(rt; suited_rows(&Clearance(EditionTwo), &units, &bays)[1], 0);
}
