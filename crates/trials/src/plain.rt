// The second search, from the rules alone: every list of bays in dictionary order, tested one by one. It shares with the library the rows
// that are drawn and the test whether a row holds a bay.
use drawing::{Case, Chance, Graph};
use graphs::holds;

// A case of drawn units and rows in a room of these bays.
pub(crate) fn drawn_case(chance: &mut Chance, bays: Graph) -> Case {
    let count = chance.between(1, 5);
    let hundredths = chance.between(20, 80) as u64;
    let units = Graph::random(chance, count, hundredths);
    let share = chance.between(60, 110) as u64;
    Case::random(chance, units, bays, share)
}

// The second search of a case, in the open or the strict use.
#[derive(Clone, Copy)]
pub(crate) struct PlainSearch<'a> {
    pub case: &'a Case,
    pub strict: bool,
}

impl<'a> PlainSearch<'a> {
    // How many lists of bays there are, one bay a unit.
    pub(crate) fn lists(&self) -> usize {
        (0..self.case.units.count).fold(
            1usize,
            |lists, _| lists.saturating_mul(self.case.bays.count),
        )
    }

    // The list with this number, counted from 0 in dictionary order, and zeros behind, as a search answers it.
    pub(crate) fn list(&self, number: usize) -> [u8; 24] {
        let bays = self.case.bays.count.max(1);
        let count = self.case.units.count.min(24);
        let mut list = [0u8; 24];
        let mut rest = number;
        // The front is cut off first: from the back, `take` would pass over all that lies behind it.
        for bay in list[..count].iter_mut().rev() {
            *bay = (rest % bays) as u8;
            rest /= bays;
        }
        list
    }

    // Whether the bays b and c of two different units u and v obey the rules.
    fn suits(&self, (u, b): (usize, usize), (v, c): (usize, usize)) -> bool {
        let units = self.case.units.joined(u, v);
        let bays = self.case.bays.joined(b, c);
        b != c && (bays || !units) && (units || !bays || !self.strict)
    }

    // Whether the bay is open to the unit, and obeys the rules with the bay of each other unit.
    fn fits(&self, list: &[u8], u: usize, b: usize) -> bool {
        self.case.rows().get(u).is_some_and(|row| holds(*row, b))
            && list.iter().enumerate().all(|(v, c)| u == v
                || self.suits((u, b), (v, usize::from(*c))))
    }

    // Whether each unit fits in its bay of the list.
    fn passes(&self, list: &[u8]) -> bool {
        list.iter()
            .enumerate()
            .all(|(u, b)| self.fits(list, u, usize::from(*b)))
    }

    // The number of the first placement among the lists from this number on.
    pub(crate) fn placement_from(&self, number: usize) -> Option<usize> {
        let count = self.case.units.count.min(24);
        (number..self.lists()).find(|k| self.passes(&self.list(*k)[0..count]))
    }
}
