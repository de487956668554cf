// Reads a job, part by part, and tells the first thing that is wrong.
ghost use Rattle.std.specs.Prelude.{◌≡◌, ℕ, ◌+◌, ◌*◌, ◌≤◌, length, drop, IfOk, OnOk};
ghost use Rattle.tables.specs.Form.{view as view_table};
ghost use Rattle.tables.specs.Parts.{Nothing, Exact};
ghost use Rattle.tables.specs.Read.{seen as seen_table};
ghost use Rattle.saved.specs.Plan.{plan_bytes};
ghost use Rattle.jobs.specs.Form.{JobLawful, job_bytes, view};
ghost use Rattle.jobs.specs.Read.{up_to, front, head_part, joints_part, kinds_part, heights_part, same_sizes, job_part, read_job, seen};

use crate::fault::JobFault;
use crate::head::{Edition, Mode};
use crate::job::Job;
use saved::read_plan;
use sources::{JointFault, JointTable};
use tables::{Table, read_table};

// The three bytes that open the job.
fn read_head(input: &[u8]) -> Result<(Mode, Edition), JobFault>
    ensures { up_to 3 result ≡ head_part input.now 0 }
{
    let [mode, rest @ ..] = input else {
        return Err(JobFault::Ended(input.len()));
    };
    let mode = Mode::try_from(*mode).map_err(|_| JobFault::Unknown(0))?;
    let [low, high, ..] = rest else {
        return Err(JobFault::Ended(input.len()));
    };
    let number = u16::from_le_bytes([*low, *high]);
    let edition = Edition::try_from(number).map_err(|_| JobFault::Unknown(1))?;
    Ok((mode, edition))
}

// A table of joints from the place `at` on, and the place behind it. The readers take the whole input with a place in it, since a fault
// tells an offset in the whole and `read_table` and `read_plan` take it so.
fn read_joints(input: &[u8], at: usize) -> Result<(Table, usize), JobFault>
    ensures value { seen_table result ≡ joints_part input.now at }
    ensures within { IfOk result (λ p. p.1 ≤ length input.now) }
{
    let (table, next) = read_table(input, at)?;
    let ill = JobFault::Joints(JointFault { place: at });
    JointTable::look_over(table.rows(), table.columns()).map_err(|_| ill)?;
    Ok((table, next))
}

// A byte a unit from the place `at` on.
fn read_kinds(input: &[u8], at: usize, units: usize) -> Result<[u8; 64], JobFault>
    requires room { at ≤ length input.now }
    requires few { units ≤ 64 }
    ensures value { front units (at + units) result ≡ kinds_part units input.now at }
    ensures within { OnOk result (at + units ≤ length input.now) }
{
    let part = &input[at..];
    if part.len() < units {
        return Err(JobFault::Ended(input.len()));
    }
    let mut kinds = [0; 64];
    kinds[..units].copy_from_slice(&part[..units]);
    Ok(kinds)
}

// Two bytes a bay from the place `at` on. One function for kinds and heights would take the bytes a card, the decoder and its law as
// parameters, for two calls.
fn read_heights(input: &[u8], at: usize, bays: usize) -> Result<[u16; 64], JobFault>
    requires room { at ≤ length input.now }
    requires few { bays ≤ 64 }
    ensures value { front bays (at + 2 * bays) result ≡ heights_part bays input.now at }
    ensures within { OnOk result (at + 2 * bays ≤ length input.now) }
{
    let part = &input[at..];
    if part.len() < 2 * bays {
        return Err(JobFault::Ended(input.len()));
    }
    let (pairs, _) = part[..2 * bays].as_chunks::<2>();
    let mut heights = [0; 64];
    for (k, [low, high]) in pairs.iter().enumerate() {
        heights[k] = u16::from_le_bytes([*low, *high]);
    }
    Ok(heights)
}

// Whether the plan has as many units and bays as the tables.
fn sizes_match(struck: &Table, units: usize, bays: usize) -> bool
    ensures { result ≡ same_sizes units bays (view_table struck.now) }
{
    struck.rows().len() == units && struck.columns() == bays
}

// The job that the whole input holds.
#[tactic(auto, using(crate::proofs::Jobs::job_exact))]
pub fn read_job(input: &[u8]) -> Result<Job, JobFault>
    ensures value { seen result ≡ read_job input.now }
    ensures lawful { IfOk result (λ j. JobLawful (view j)) }
    ensures plan { IfOk result (λ j. drop j.plan_at input.now ≡ plan_bytes (view j).struck) }
    ensures exact { Exact JobLawful Nothing job_part job_bytes }
{
    let (mode, edition) = read_head(input)?;
    let (arrangement, room_at) = read_joints(input, 3)?;
    let (room, cards_at) = read_joints(input, room_at)?;
    let units = arrangement.rows().len();
    let bays = room.rows().len();
    let kinds = read_kinds(input, cards_at, units)?;
    let heights = read_heights(input, cards_at + units, bays)?;
    let plan_at = cards_at + units + 2 * bays;
    let struck = read_plan(input, plan_at)?;
    if !sizes_match(&struck, units, bays) {
        return Err(JobFault::Unequal(plan_at + 1));
    }
    Ok(Job {
        mode,
        edition,
        arrangement,
        room,
        kinds,
        heights,
        struck,
        plan_at,
    })
}
