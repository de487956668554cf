ghost use Rattle.std.specs.Prelude.{◌≡◌};
ghost use Rattle.tables.specs.Parts.{Nothing, Exact};
ghost use Rattle.tables.specs.Form.{view};
ghost use Rattle.saved.specs.Plan.{PlanLawful, plan_bytes, plan_part, read_plan, seen, sized};

use crate::FORM;
use crate::fault::PlanFault;
use tables::{Table, read_table};

// Whether a plan can have as many units as the table has rows, and as many bays as it has columns.
fn sizes_fit(table: &Table) -> bool
    ensures { result ≡ sized (view table.now) }
{
    (1..=24).contains(&table.rows().len()) && (1..=64).contains(&table.columns())
}

// The struck pairs of the plan that is saved from the place `at` to the end of the input. It takes the whole input, since faults tell
// offsets in it.
#[tactic(auto, using(crate::proofs::Plans::plan_exact))]
pub fn read_plan(input: &[u8], at: usize) -> Result<Table, PlanFault>
    ensures value { seen result ≡ read_plan input.now at }
    ensures exact { Exact PlanLawful Nothing plan_part plan_bytes }
{
    let Some(form) = input.get(at) else {
        return Err(PlanFault::Ended(input.len()));
    };
    if *form != FORM {
        return Err(PlanFault::Form(at));
    }
    let (table, next) = read_table(input, at + 1)?;
    if !sizes_fit(&table) {
        return Err(PlanFault::Sizes(at + 1));
    }
    if next < input.len() {
        return Err(PlanFault::Left(next));
    }
    Ok(table)
}
