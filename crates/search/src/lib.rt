// The search for a placement: units are settled one after another, bays in rising order.
#![tactic(auto)]

ghost use Rattle.std.specs.Prelude.{◌≡◌, ℕ, ◌+◌, ◌-◌, ◌<◌, ◌≤◌, Bool, true, false, ◌&&◌, length, take, Some, None, is_some, unwrap_or, option_copied, IfSome, nat_le, slice_index};
ghost use Rattle.graphs.specs.Rows.{bit, row_of};
ghost use Rattle.placements.specs.Agreement.{agrees_if};
ghost use Rattle.filters.specs.Filter.{shaped};
ghost use Rattle.search.specs.Masks.{picked};
ghost use Rattle.search.specs.Walk.{any_empty, narrowed, after_try, offered, chosen, setting, asked, settle_after, walk, LeftBy};
ghost use Rattle.search.specs.Found.{padded, found_with, answer_with, answer_of, Sought, SoughtAfter, Searched, FindsFirst, FindsNext, FiltersAlike};
ghost use Rattle.placements.specs.Morphisms.{OpenIsMono, StrictIsInduced};
ghost use Rattle.search.specs.Tries.{CountsTries};

use filters::{Filter, well_shaped};
use graphs::{Source, holds, nodes};
use placements::{Joined, Problem};

// The placement found, the bay of each unit in order and zeros behind (an array, since the library has no heap), and the tries that it
// took.
#[derive(Clone, Copy, Debug)]
pub struct Find {
    pub bays: [u8; 24],
    pub tries: u32,
}

// Why a search answers no placement.
#[derive(Clone, Copy, PartialEq, Eq, Debug)]
pub enum SearchError {
    IllShaped,
    NoPlacement { tries: u32 },
}

// The bays that agree with one bay, by how the two units are joined: both ways, only from the settled unit, only to it, not at all.
#[derive(Clone, Copy)]
struct Masks {
    both: u64,
    out: u64,
    back: u64,
    apart: u64,
}

// A walk over units and bays: what is sought, and the filter that thins out the rows after each try.
#[derive(Drop)]
struct Walk<'a, A, R, F> {
    problem: &'a Problem<'a, A, R>,
    filter: &'a F,
}

impl Masks {
    // The joints are read from the other unit.
    fn new<A, R: Source>(problem: &Problem<A, R>, b: usize) -> Masks
        ensures { (out back : Bool) → picked result out back ≡ row_of (R.Source.graph problem.now.room.now).count (λ c. agrees_if (R.Source.graph problem.now.room.now) out back problem.now.strict b c) }
    {
        let mask = |out, back| problem.agreeing(Joined { out, back }, b);
        Masks {
            both: mask(true, true),
            out: mask(false, true),
            back: mask(true, false),
            apart: mask(false, false),
        }
    }

    fn of(&self, joined: Joined) -> u64
        ensures { result ≡ picked self.now joined.out joined.back }
    {
        // Nested, since with a match over the pair a search ran 7 per cent more instructions, those of the filter left out.
        if joined.out {
            if joined.back { self.both } else { self.out }
        } else if joined.back {
            self.back
        } else {
            self.apart
        }
    }
}

// The set of units with `v` in it, where that unit's row was cut.
// With `with_node` of graphs, which tests `v`, a search ran 5 per cent more instructions, those of the filter left out.
fn mark(units: u64, v: usize, cut: bool) -> u64
    requires { v < 64 }
    ensures { (k : ℕ) → bit result k ≡ false → (bit units k ≡ false) × (k ≡ v → cut ≡ false) }
{
    if cut { units | (1 << v) } else { units }
}

// The bays that are tried for a unit with this row; `bound` is the last answer's bay for it, where all earlier bays equal that
// answer's.
fn offers(row: u64, bound: Option<u8>, last_unit: bool) -> u64
    ensures { (b : ℕ) → bit result b ≡ offered row (is_some bound) (unwrap_or bound 0) last_unit b }
{
    let Some(bound) = bound else {
        return row;
    };
    let from = bound as usize + last_unit as usize;
    if from < 64 {
        row & !((1 << from) - 1)
    } else {
        0
    }
}

// The lowest bay of each row, and zeros behind.
fn lowest_bays(rows: &[u64]) -> [u8; 24]
    requires { length rows.now ≤ 24 }
    ensures { result ≡ padded (chosen rows.now) }
{
    let mut bays = [0u8; 24];
    for (u, row) in rows.iter().enumerate() {
        bays[u] = row.trailing_zeros() as u8;
    }
    bays
}

impl<'a, A: Source, R: Source, F: Filter> Walk<'a, A, R, F> {
    // Into `next` go the rows after unit `u` has taken the bay `b`; the answer is a set of units outside which no row has changed.
    fn narrow(&self, u: usize, b: usize, rows: &[u64], next: &mut [u64]) -> u64
        requires same { length next.old ≡ length rows.now }
        requires few { length rows.now ≤ 24 }
        requires unit { u < length rows.now }
        requires bay { b < 64 }
        ensures next { next.new ≡ narrowed (A.Source.graph self.now.problem.now.arrangement.now) (R.Source.graph self.now.problem.now.room.now) self.now.problem.now.strict u b rows.now }
        ensures changed { (v : ℕ) → bit result v ≡ false → slice_index next.new v ≡ slice_index rows.now v }
    {
        let masks = Masks::new(self.problem, b);
        let out = self.problem.arrangement.row(u);
        let back = self.problem.arrangement.column(u);
        next.copy_from_slice(rows);
        next[u] = 1 << b;
        let mut changed: u64 = 1 << u;
        // `next` is written at the index, so a walk by `rows.iter().enumerate().skip(u + 1)` would be no plainer.
        for v in u + 1..rows.len() {
            let joined = Joined {
                out: holds(out, v),
                back: holds(back, v),
            };
            let kept = rows[v] & masks.of(joined);
            changed = mark(changed, v, kept != rows[v]);
            next[v] = kept;
        }
        changed
    }

    // One try: into `next` go the rows that it leaves, and the answer says whether one of them is empty.
    fn attempt(&self, u: usize, b: usize, rows: &[u64], next: &mut [u64]) -> bool
        requires same { length next.old ≡ length rows.now }
        requires held { bit (slice_index rows.now u) b ≡ true }
        requires left { LeftBy (asked A.Source.graph R.Source.graph F.Filter.left self.now) rows.now }
        ensures left { next.new ≡ after_try (asked A.Source.graph R.Source.graph F.Filter.left self.now) u b rows.now }
        ensures empty { result ≡ any_empty next.new }
    {
        let changed = self.narrow(u, b, rows, next);
        let counts = self.filter.resume(self.problem, changed, next);
        counts.empty > 0
    }

    // Settles the units from `u` upward: what is found, or the tries made in vain. There is a last answer only while the bays of all
    // earlier units equal its bays.
    fn settle_from(
        &self,
        last: Option<&[u8]>,
        u: usize,
        rows: &[u64],
        tries: u32,
    ) -> Result<Find, u32>
        requires lasting { IfSome last (λ l. length rows.now ≤ length l.now) }
        requires left { LeftBy (asked A.Source.graph R.Source.graph F.Filter.left self.now) rows.now }
        ensures { let o = settle_after (asked A.Source.graph R.Source.graph F.Filter.left self.now) (option_copied last.entry) (length rows.now - u) u rows.now in result ≡ found_with o.found (tries + o.tries) }
    {
        if u >= rows.len() {
            return Ok(Find {
                bays: lowest_bays(rows),
                tries,
            });
        }
        let bound = last.map(|last| last[u]);
        let mut so_far = tries;
        let mut next = [0u64; 24];
        for b in nodes(offers(rows[u], bound, u + 1 == rows.len())) {
            so_far = so_far.saturating_add(1);
            let part = &mut next[0..rows.len()];
            if !self.attempt(u, b, rows, part) {
                let same = last.filter(|last| last[u] as usize == b);
                match self.settle_from(same, u + 1, part, so_far) {
                    Ok(find) => return Ok(find),
                    Err(made) => so_far = made,
                }
            }
        }
        Err(so_far)
    }

    // The whole search within the rows, from the start or after the last answer.
    fn search_rows(&self, last: Option<&[u8]>, rows: &[u64]) -> Result<Find, SearchError>
        requires shape { shaped (A.Source.graph self.now.problem.now.arrangement.now) (R.Source.graph self.now.problem.now.room.now) rows.now ≡ true }
        requires lasting { IfSome last (λ l. length rows.now ≤ length l.now) }
        ensures { let o = walk (asked A.Source.graph R.Source.graph F.Filter.left self.now) (option_copied last.entry) rows.now in result ≡ answer_with o.found o.tries }
    {
        let mut start = [0u64; 24];
        let part = &mut start[0..rows.len()];
        part.copy_from_slice(rows);
        if self.filter.apply(self.problem, part).empty > 0 {
            return Err(SearchError::NoPlacement { tries: 0 });
        }
        self.settle_from(last, 0, part, 0)
            .map_err(|tries| SearchError::NoPlacement { tries })
    }
}

// The first placement within the rows in dictionary order. The filter is no part of the problem: any lawful one finds the same.
pub fn first<A: Source, R: Source, F: Filter>(
    problem: &Problem<A, R>,
    filter: &F,
    rows: &[u64],
) -> Result<Find, SearchError>
    ensures answer { result ≡ answer_of (shaped (A.Source.graph problem.now.arrangement.now) (R.Source.graph problem.now.room.now) rows.now) (walk (setting (A.Source.graph problem.now.arrangement.now) (R.Source.graph problem.now.room.now) problem.now.strict (F.Filter.left filter.now)) None rows.now) }
    ensures first { shaped (A.Source.graph problem.now.arrangement.now) (R.Source.graph problem.now.room.now) rows.now ≡ true → Searched (Sought (A.Source.graph problem.now.arrangement.now) (R.Source.graph problem.now.room.now) problem.now.strict rows.now) (length rows.now) (walk (setting (A.Source.graph problem.now.arrangement.now) (R.Source.graph problem.now.room.now) problem.now.strict (F.Filter.left filter.now)) None rows.now).tries result }
    ensures theorem { FindsFirst }
    ensures counted { CountsTries }
    ensures alike { FiltersAlike }
    ensures monomorphisms { OpenIsMono }
    ensures induced { StrictIsInduced }
{
    if !well_shaped(problem, rows) {
        return Err(SearchError::IllShaped);
    }
    Walk { problem, filter }.search_rows(None, rows)
}

// The first placement within the rows that comes after the last answer in dictionary order.
pub fn next_after<A: Source, R: Source, F: Filter>(
    problem: &Problem<A, R>,
    filter: &F,
    rows: &[u64],
    last: &[u8],
) -> Result<Find, SearchError>
    ensures answer { result ≡ answer_of (shaped (A.Source.graph problem.now.arrangement.now) (R.Source.graph problem.now.room.now) rows.now && nat_le (length rows.now) (length last.now)) (walk (setting (A.Source.graph problem.now.arrangement.now) (R.Source.graph problem.now.room.now) problem.now.strict (F.Filter.left filter.now)) (Some (take (length rows.now) last.now)) rows.now) }
    ensures next { (shaped (A.Source.graph problem.now.arrangement.now) (R.Source.graph problem.now.room.now) rows.now && nat_le (length rows.now) (length last.now)) ≡ true → Searched (SoughtAfter (A.Source.graph problem.now.arrangement.now) (R.Source.graph problem.now.room.now) problem.now.strict rows.now (take (length rows.now) last.now)) (length rows.now) (walk (setting (A.Source.graph problem.now.arrangement.now) (R.Source.graph problem.now.room.now) problem.now.strict (F.Filter.left filter.now)) (Some (take (length rows.now) last.now)) rows.now).tries result }
    ensures theorem { FindsNext }
    ensures counted { CountsTries }
{
    if !(well_shaped(problem, rows) & (rows.len() <= last.len())) {
        return Err(SearchError::IllShaped);
    }
    Walk { problem, filter }.search_rows(Some(&last[0..rows.len()]), rows)
}
