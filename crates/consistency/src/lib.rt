// Arc consistency: leaves the pairs that have a support at every other unit.
#![tactic(auto)]

ghost use Rattle.std.specs.Prelude.{◌≡◌, ℕ, ◌+◌, ◌<◌, ◌≤◌, true, false, not, ◌&&◌, length, replicate, if◌then◌else◌};
ghost use Rattle.graphs.specs.Rows.{bit, row_of};
ghost use Rattle.placements.specs.Agreement.{agrees_if};
ghost use Rattle.consistency.specs.Support.{SupportGreatest, SupportedBut, Greatest, AllOrNone, any_of, revised, support_meaning};
ghost use Rattle.consistency.specs.Rooms.{RoomsHold, rooms};
ghost use Rattle.consistency.specs.Cut.{CutTo};
ghost use Rattle.filters.specs.Filter.{all_below, pair_count, shaped, Counted, Inside};
ghost use Rattle.consistency.specs.Theory.{support_lawful};

use filters::{Counts, Filter, empty_rows, nothing_taken, well_shaped};
use graphs::{Source, nodes};
use placements::{Joined, Problem};

// What the meaning of arc consistency is, for every arrangement and room, and in small rooms; answers how many those are.
pub fn rooms_worked() -> usize
    ensures count { result ≡ length rooms }
    ensures worked { RoomsHold }
    ensures greatest { SupportGreatest }
{
    10
}

// The bays that differ from some bay of the row: all where it has two, all but that one where it has one.
fn differing<A, R: Source>(problem: &Problem<A, R>, row: u64) -> u64
    ensures { result ≡ row_of (R.Source.graph problem.now.room.now).count (λ b. any_of row (R.Source.graph problem.now.room.now).count (agrees_if (R.Source.graph problem.now.room.now) false false false b)) }
{
    let all = u64::MAX >> (64 - problem.room.count());
    let held = row & all;
    if held == 0 {
        0
    } else if held & (held - 1) == 0 {
        all & !held
    } else {
        all
    }
}

// The bays of the row that agree with some bay of the other row.
pub fn revise<A, R: Source>(problem: &Problem<A, R>, joined: Joined, row: u64, other: u64) -> u64
    ensures { result ≡ revised (R.Source.graph problem.now.room.now) joined.out joined.back problem.now.strict row other }
{
    if !(joined.out | joined.back | problem.strict) {
        return row & differing(problem, other);
    }
    let all = u64::MAX >> (64 - problem.room.count());
    let mut found: u64 = 0;
    for c in nodes(other & all) {
        found |= row & problem.agreeing(joined, c);
        if found == row & all {
            return found;
        }
    }
    found
}

// Leaves in the rows of the units only the bays of `keep`, and answers the units whose rows changed. Stops at a row that has none
// of them, and answers nothing then.
fn cut_rows(rows: &mut [u64], units: u64, keep: u64) -> Option<u64>
    requires { (u : ℕ) → bit units u ≡ true → u < length rows.old }
    ensures { CutTo units keep rows.old rows.new result }
{
    let mut changed: u64 = 0;
    for u in nodes(units) {
        let old = rows[u];
        let row = old & keep;
        if row != old {
            rows[u] = row;
            changed |= 1 << u;
            if row == 0 {
                return None;
            }
        }
    }
    Some(changed)
}

// Of the `others`, the units that are joined to a unit (are in `from`) or not, as `joined.out` says, and that it is joined to (are
// in `to`) or not, as `joined.back` says.
fn class_of(others: u64, from: u64, to: u64, joined: Joined) -> u64
    ensures { (u : ℕ) → bit result u ≡ (bit others u && ((if joined.out then bit from u else not (bit from u)) && (if joined.back then bit to u else not (bit to u)))) }
{
    let first = if joined.out { from } else { !from };
    let second = if joined.back { to } else { !to };
    others & first & second
}

// Leaves in the rows of the units of one class only the bays that agree with some bay of the other row, as `cut_rows` does.
fn cut_class<A, R: Source>(
    problem: &Problem<A, R>,
    joined: Joined,
    units: u64,
    other: u64,
    rows: &mut [u64],
) -> Option<u64>
    requires within { (u : ℕ) → bit units u ≡ true → u < length rows.old }
    requires below { all_below (R.Source.graph problem.now.room.now).count rows.old ≡ true }
    ensures { CutTo units (revised (R.Source.graph problem.now.room.now) joined.out joined.back problem.now.strict 18446744073709551615 other) rows.old rows.new result }
{
    if units == 0 {
        return Some(0);
    }
    let keep = revise(problem, joined, u64::MAX, other);
    if keep == u64::MAX >> (64 - problem.room.count()) {
        return Some(0);
    }
    cut_rows(rows, units, keep)
}

// Takes away pairs without support until each has one, or every pair where a row has none left, and answers whether it took every
// pair. The work list `changed` holds the units whose rows the others must still be checked against. It begins with those in
// `first`; where each pair has its supports at the units outside `first`, what is left is the greatest supported rows.
fn settle<A: Source, R: Source>(problem: &Problem<A, R>, first: u64, rows: &mut [u64]) -> bool
    requires { shaped (A.Source.graph problem.now.arrangement.now) (R.Source.graph problem.now.room.now) rows.old ≡ true }
    ensures inside { Inside rows.new rows.old }
    ensures all { result ≡ true → rows.new ≡ replicate (length rows.old) 0 }
    ensures greatest { SupportedBut (A.Source.graph problem.now.arrangement.now) (R.Source.graph problem.now.room.now) problem.now.strict first rows.old → Greatest (A.Source.graph problem.now.arrangement.now) (R.Source.graph problem.now.room.now) problem.now.strict rows.old rows.new }
{
    if rows.contains(&0) {
        rows.fill(0);
        return true;
    }
    let all = u64::MAX >> (64 - rows.len());
    let mut changed = first & all;
    'sweep: loop {
        if changed == 0 {
            return false;
        }
        let v = changed.trailing_zeros() as usize;
        changed &= changed - 1;
        let other = rows[v];
        let others = all & !(1 << v);
        let from = problem.arrangement.column(v);
        let to = problem.arrangement.row(v);
        // By a number, since a constant list of the four ways, read in memory, made the filter slower by a tenth.
        for class in 0..4_u8 {
            let joined = Joined {
                out: class % 2 == 1,
                back: class / 2 == 1,
            };
            let units = class_of(others, from, to, joined);
            let Some(cut) = cut_class(problem, joined, units, other, rows) else {
                break 'sweep;
            };
            changed |= cut;
        }
    }
    rows.fill(0);
    true
}

// How many pairs the rows hold.
fn count_pairs(rows: &[u64]) -> usize
    requires { length rows.now ≤ 24 }
    ensures { result ≡ pair_count rows.now }
{
    rows.iter().map(|row| row.count_ones() as usize).sum()
}

// Settles the rows against those of the units in `changed`, and counts. Rows of another shape are left alone.
fn settle_shaped<A: Source, R: Source>(
    problem: &Problem<A, R>,
    changed: u64,
    rows: &mut [u64],
) -> Counts
    ensures counts { Counted rows.old rows.new result }
    ensures greatest { shaped (A.Source.graph problem.now.arrangement.now) (R.Source.graph problem.now.room.now) rows.old ≡ true → SupportedBut (A.Source.graph problem.now.arrangement.now) (R.Source.graph problem.now.room.now) problem.now.strict changed rows.old → Greatest (A.Source.graph problem.now.arrangement.now) (R.Source.graph problem.now.room.now) problem.now.strict rows.old rows.new }
    ensures ill { shaped (A.Source.graph problem.now.arrangement.now) (R.Source.graph problem.now.room.now) rows.old ≡ false → rows.new ≡ rows.old }
{
    if !well_shaped(problem, rows) {
        return nothing_taken(rows);
    }
    let before = count_pairs(rows);
    if settle(problem, changed, rows) {
        // No pair is left to count.
        return Counts {
            taken: before,
            empty: rows.len(),
        };
    }
    Counts {
        taken: before - count_pairs(rows),
        empty: empty_rows(rows),
    }
}

// Leaves the greatest rows inside the shown ones whose every pair has an agreeing pair at every other unit, and answers how many
// pairs it took away and how many rows are empty. Rows of another shape are left alone.
pub fn keep_supported<A: Source, R: Source>(problem: &Problem<A, R>, rows: &mut [u64]) -> Counts
    ensures rows { rows.new ≡ support_meaning (A.Source.graph problem.now.arrangement.now) (R.Source.graph problem.now.room.now) problem.now.strict rows.old }
    ensures counts { Counted rows.old rows.new result }
    ensures greatest { shaped (A.Source.graph problem.now.arrangement.now) (R.Source.graph problem.now.room.now) rows.old ≡ true → Greatest (A.Source.graph problem.now.arrangement.now) (R.Source.graph problem.now.room.now) problem.now.strict rows.old rows.new }
    ensures emptied { shaped (A.Source.graph problem.now.arrangement.now) (R.Source.graph problem.now.room.now) rows.old ≡ true → AllOrNone rows.new }
    ensures ill { shaped (A.Source.graph problem.now.arrangement.now) (R.Source.graph problem.now.room.now) rows.old ≡ false → rows.new ≡ rows.old }
{
    settle_shaped(problem, u64::MAX, rows)
}

// Arc consistency as a filter.
#[derive(Clone, Copy)]
pub struct ArcConsistency;

impl Filter for ArcConsistency {
    ghost left = { λ _. support_meaning };

    ghost lawful = { λ f. support_lawful };

    fn apply<A: Source, R: Source>(&self, problem: &Problem<A, R>, rows: &mut [u64]) -> Counts {
        keep_supported(problem, rows)
    }

    // Rows that were left before have their supports at every unit whose row is as it was.
    fn resume<A: Source, R: Source>(
        &self,
        problem: &Problem<A, R>,
        changed: u64,
        rows: &mut [u64],
    ) -> Counts {
        settle_shaped(problem, changed, rows)
    }
}
