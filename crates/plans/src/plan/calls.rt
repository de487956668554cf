// The calls that need no search.
ghost use Rattle.std.specs.Prelude.{◌≡◌, ℕ, ◌<◌, ◌≤◌, [], not, ◌||◌, ◌==◌, if◌then◌else◌, length, slice_index, IfOk, OnOk};
ghost use Rattle.refusals.specs.declared.Reason.TheVariants.{OutOfRange, Standing, CardCount};
ghost use Rattle.graphs.specs.Rows.{pairs};
ghost use Rattle.books.specs.Fit.{handed};
ghost use Rattle.tables.specs.Shape.{Inside, Blank};
ghost use Rattle.ledgers.specs.Calls.{begin, «open», strike, free, fit, fit_further, tally, save, number};
ghost use Rattle.ledgers.specs.Ledger.{unless, outside};
ghost use Rattle.plans.specs.Refused.{doing, saving, opening, Tests};
ghost use Rattle.plans.specs.Step.{Started, Step, Shows, Fresh, turn, view};
ghost use Rattle.plans.specs.Runs.{Law};

use crate::plan::Plan;
use crate::refusal::Refusal;
use books::{Book, suited_rows};
use graphs::holds;
use graphs::pairs::{common, total};
use saved::{PlanFault, read_plan, save_plan};
use tables::Table;

// The rows, with zeros behind them.
fn front_rows(rows: &[u64]) -> [u64; 24]
    requires { length rows.now ≤ 24 }
    ensures { (u : ℕ) → slice_index result u ≡ slice_index rows.now u }
{
    let mut front = [0; 24];
    front[..rows.len()].copy_from_slice(rows);
    front
}

impl Plan {
    // A plan as it stands at a start: no fit and no last answer.
    fn started(units: usize, bays: usize, struck: [u64; 24]) -> Plan
        requires some_units { 1 ≤ units }
        requires few_units { units ≤ 24 }
        requires some_bays { 1 ≤ bays }
        requires few_bays { bays ≤ 64 }
        requires inside { Inside bays struck }
        requires blank { Blank units struck }
        ensures { Started units bays struck result }
    {
        Plan {
            units,
            bays,
            struck,
            fitted: None,
            last: None,
        }
    }

    // Declines a pair that the plan does not have.
    pub(super) fn in_range(&self, unit: usize, bay: usize) -> Result<(), Refusal>
        ensures tests { Tests (unless OutOfRange (outside (view self.now) unit bay)) result }
        ensures inside { OnOk result ((unit < self.now.units) × (bay < self.now.bays)) }
    {
        if unit >= self.units || bay >= self.bays {
            return Err(Refusal::OutOfRange);
        }
        Ok(())
    }

    // The struck bays of the unit, where the bay is one of them just if `struck` says so.
    fn standing(&self, unit: usize, bay: usize, struck: bool) -> Result<u64, Refusal>
        ensures tests { Tests (λ v. unless OutOfRange (outside (view self.now) unit bay) (unless Standing (if struck then not (pairs self.now.struck unit bay) else pairs self.now.struck unit bay) v)) result }
        ensures inside { OnOk result ((unit < self.now.units) × (bay < self.now.bays)) }
        ensures row { IfOk result (λ row. row ≡ slice_index self.now.struck unit) }
    {
        self.in_range(unit, bay)?;
        let row = self.struck[unit];
        if holds(row, bay) != struck {
            return Err(Refusal::Standing);
        }
        Ok(row)
    }

    // Declines other than one card a unit and one a bay.
    fn one_card_each(&self, units: usize, bays: usize) -> Result<(), Refusal>
        ensures tests { Tests (unless CardCount (not (units == self.now.units) || not (bays == self.now.bays))) result }
        ensures counts { OnOk result ((units ≡ self.now.units) × (bays ≡ self.now.bays)) }
    {
        if units != self.units || bays != self.bays {
            return Err(Refusal::CardCount);
        }
        Ok(())
    }

    // A plan of one unit and one bay.
    pub fn new() -> Plan
        ensures fresh { Fresh result }
        ensures law { Law }
    {
        Plan::started(1, 1, [0; 24])
    }

    // Starts the plan over.
    pub fn begin(&mut self, units: usize, bays: usize) -> Result<(), Refusal>
        ensures { Step self.old (turn (begin units bays) (doing result) []) self.new }
    {
        if units < 1 || units > 24 || bays < 1 || bays > 64 {
            return Err(Refusal::Sizes);
        }
        *self = Plan::started(units, bays, [0; 24]);
        Ok(())
    }

    // Starts the plan over with the pairs struck that the saved bytes name.
    pub fn open(&mut self, bytes: &[u8]) -> Result<(), PlanFault>
        ensures step { Step self.old (turn («open» bytes.now) (opening result) []) self.new }
        ensures shows { Shows («open» bytes.now) }
    {
        let table = read_plan(bytes, 0)?;
        let units = table.rows().len();
        let bays = table.columns();
        let struck = front_rows(table.rows());
        *self = Plan::started(units, bays, struck);
        Ok(())
    }

    // Writes the saved form of the sizes and the strikes, and answers its length.
    pub fn save(&self, out: &mut [u8]) -> Result<usize, Refusal>
        ensures { Step self.now (turn (save out.old) (saving result) out.new) self.now }
    {
        let table = Table::from_rows(self.bays, &self.struck[..self.units]);
        save_plan(&table, out).map_err(Refusal::from)
    }

    // Strikes a pair.
    pub fn strike(&mut self, unit: usize, bay: usize) -> Result<(), Refusal>
        ensures { Step self.old (turn (strike unit bay) (doing result) []) self.new }
    {
        let row = self.standing(unit, bay, false)?;
        self.struck[unit] = row | (1 << bay);
        Ok(())
    }

    // Frees a struck pair.
    pub fn free(&mut self, unit: usize, bay: usize) -> Result<(), Refusal>
        ensures { Step self.old (turn (free unit bay) (doing result) []) self.new }
    {
        let row = self.standing(unit, bay, true)?;
        self.struck[unit] = row & !(1 << bay);
        Ok(())
    }

    // Fits exactly the pairs whose cards suit by the book.
    pub fn fit<B: Book>(
        &mut self,
        book: &B,
        units: &[B::UnitCard],
        bays: &[B::BayCard],
    ) -> Result<(), Refusal>
        ensures { Step self.old (turn (fit (handed (B.Book.suiting book.now) units.now bays.now)) (doing result) []) self.new }
    {
        self.one_card_each(units.len(), bays.len())?;
        let suited = suited_rows(book, units, bays);
        self.fitted = Some(suited);
        Ok(())
    }

    // Drops the fitted pairs that the book refuses.
    pub fn fit_further<B: Book>(
        &mut self,
        book: &B,
        units: &[B::UnitCard],
        bays: &[B::BayCard],
    ) -> Result<(), Refusal>
        ensures { Step self.old (turn (fit_further (handed (B.Book.suiting book.now) units.now bays.now)) (doing result) []) self.new }
    {
        self.one_card_each(units.len(), bays.len())?;
        // The book is asked only where there is a fit.
        let Some(fitted) = &mut self.fitted else {
            return Err(Refusal::NoFit);
        };
        let suited = suited_rows(book, units, bays);
        *fitted = common(fitted, &suited);
        Ok(())
    }

    // How many pairs are not struck.
    pub fn tally(&self) -> usize
        ensures { Step self.now (turn tally (number result) []) self.now }
    {
        self.units * self.bays - total(&self.struck)
    }
}
