ghost use Rattle.std.specs.Prelude.{◌≡◌, ◌+◌, ◌*◌, length, take, IfOk, Ok};
ghost use Rattle.tables.specs.Form.{view};
ghost use Rattle.tables.specs.Saved.{Saved};
ghost use Rattle.tables.specs.Written.{stored};
ghost use Rattle.saved.specs.Plan.{PlanLawful, plan_bytes, read_plan};

use crate::FORM;
use tables::{SaveFault, Table, write_table};

// Writes the saved form of a plan with the struck pairs, and answers its length; declines where the buffer is shorter.
pub fn save_plan(struck: &Table, out: &mut [u8]) -> Result<usize, SaveFault>
    ensures saved { Saved (plan_bytes (view struck.now)) out.old out.new result }
    ensures back { IfOk result (λ n. PlanLawful (view struck.now) → read_plan (take n out.new) 0 ≡ Ok (view struck.now)) }
    ensures size { length (plan_bytes (view struck.now)) ≡ 11 + 8 * stored (view struck.now).rows }
{
    if out.len() < 1 {
        return Err(SaveFault::Short);
    }
    let written = write_table(struck, &mut out[1..])?;
    out[0] = FORM;
    Ok(written + 1)
}
