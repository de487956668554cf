// Which bays agree, and what a placement is.
#![tactic(auto)]

ghost use Rattle.std.specs.Prelude.{◌≡◌, ℕ, ◌<◌, length, Decides, ◌&&◌, ◌||◌, ◌==◌, nat_lt, slice_index};
ghost use Rattle.graphs.specs.Rows.{bit, row_of};
ghost use Rattle.placements.specs.Agreement.{half, agrees_if, agrees};
ghost use Rattle.placements.specs.Placement.{Placement};
ghost use Rattle.placements.specs.Morphisms.{AgreementOnce, OpenIsMono, StrictIsInduced};
ghost use Rattle.placements.specs.Tests.{each_below};

use graphs::Source;

// What placements are sought for: the arrangement, the room, and whether units that are not joined must stand on bays that are not
// joined.
#[derive_where(Clone, Copy)]
pub struct Problem<'a, A, R> {
    pub arrangement: &'a A,
    pub room: &'a R,
    pub strict: bool,
}

// How two units are joined: the first to the second, and the second to the first.
#[derive(Clone, Copy, PartialEq, Eq, Debug)]
pub struct Joined {
    pub out: bool,
    pub back: bool,
}

// The bays that one direction of a joint leaves: where the units are joined those of the row, else all, but in strict use those
// outside the row.
fn one_way(row: u64, joined: bool, strict: bool) -> u64
    ensures { (b : ℕ) → b < 64 → bit result b ≡ half strict joined (bit row b) }
{
    if joined {
        row
    } else if strict {
        !row
    } else {
        u64::MAX
    }
}

// Whether the bays suit one direction of a joint.
fn one_way_suits(units: bool, bays: bool, strict: bool) -> bool
    ensures { result ≡ half strict units bays }
{
    if units { bays } else { !(strict & bays) }
}

impl<'a, A, R: Source> Problem<'a, A, R> {
    // The bays for one unit that agree with the bay `c` of another. Nothing is asked of the arrangement here: it may be `&()`.
    pub fn agreeing(&self, joined: Joined, c: usize) -> u64
        ensures { result ≡ row_of (R.Source.graph self.now.room.now).count (λ b. agrees_if (R.Source.graph self.now.room.now) joined.out joined.back self.now.strict b c) }
    {
        // By a function for any count, which has to test it, filters and search ran 3 per cent more instructions.
        let all = u64::MAX >> (64 - self.room.count());
        let others = if c < 64 { all & !(1 << c) } else { all };
        let out = one_way(self.room.column(c), joined.out, self.strict);
        let back = one_way(self.room.row(c), joined.back, self.strict);
        others & out & back
    }
}

impl<'a, A: Source, R: Source> Problem<'a, A, R> {
    // Whether the pairs (u, b) and (v, c) of two different units agree.
    fn agree(&self, u: usize, b: usize, v: usize, c: usize) -> bool
        ensures { result ≡ agrees (A.Source.graph self.now.arrangement.now) (R.Source.graph self.now.room.now) self.now.strict u b v c }
    {
        let out = one_way_suits(
            self.arrangement.joined(u, v),
            self.room.joined(b, c),
            self.strict,
        );
        let back = one_way_suits(
            self.arrangement.joined(v, u),
            self.room.joined(c, b),
            self.strict,
        );
        (b != c) & (out & back)
    }

    // Whether the bay `b` is in the room and agrees, for the unit `u`, with the bay of each other unit.
    fn suits(&self, bays: &[u8], u: usize, b: usize) -> bool
        ensures { result ≡ (nat_lt b (R.Source.graph self.now.room.now).count && each_below (length bays.now) (λ v. u == v || agrees (A.Source.graph self.now.arrangement.now) (R.Source.graph self.now.room.now) self.now.strict u b v (slice_index bays.now v))) }
    {
        b < self.room.count()
            && bays
                .iter()
                .enumerate()
                .all(|(v, c)| (u == v) | self.agree(u, b, v, *c as usize))
    }

    // Whether the list, one bay a unit, is a placement of the arrangement in the room. In open use that is a monomorphism of the
    // graphs, in strict use an isomorphism onto the subgraph that its bays induce in the room.
    pub fn is_placement(&self, bays: &[u8]) -> bool
        ensures decides { Decides result (Placement (A.Source.graph self.now.arrangement.now) (R.Source.graph self.now.room.now) self.now.strict bays.now) }
        ensures agreement { AgreementOnce }
        ensures monomorphism { OpenIsMono }
        ensures induced { StrictIsInduced }
    {
        bays.len() == self.arrangement.count()
            && bays
                .iter()
                .enumerate()
                .all(|(u, b)| self.suits(bays, u, *b as usize))
    }
}
