// The plan of a job: opened from its saved form, and fitted by the book of the job's edition.
ghost use Rattle.std.specs.Prelude.{◌≡◌, [], None};
ghost use Rattle.saved.specs.Plan.{plan_bytes};
ghost use Rattle.ledgers.specs.Calls.{fit};
ghost use Rattle.plans.specs.Refused.{doing};
ghost use Rattle.plans.specs.Step.{Step, turn, view as held};
ghost use Rattle.jobs.specs.Form.{view as form};
ghost use Rattle.listings.specs.Suited.{cards_of};
ghost use Rattle.listings.specs.Fitted.{fitted_ledger};

use crate::lawful::LawfulJob;
use books::{Clearance, EditionOne, EditionTwo, HeightCard, KindCard};
use jobs::Edition;
use plans::plan::Plan;
use plans::refusal::Refusal;
use std::array;

fn fit_plan(plan: &mut Plan, lawful: &LawfulJob) -> Result<(), Refusal>
    ensures { Step plan.old (turn (fit (cards_of (form lawful.now.job.now))) (doing result) []) plan.new }
{
    let job = lawful.job;
    let (kinds, heights) = (job.kinds(), job.heights());
    // The cards are lent as slices and stand in arrays, as libraries here use no heap.
    let units: [KindCard; 64] = array::from_fn(|u| KindCard {
        kind: kinds.get(u).copied().unwrap_or(0),
    });
    let bays: [HeightCard; 64] = array::from_fn(|b| HeightCard {
        height: heights.get(b).copied().unwrap_or(0),
    });
    let (units, bays) = (&units[..kinds.len()], &bays[..heights.len()]);
    // The editions are two types, so that a book's edition is a constant of its type, and each has its call.
    match job.edition {
        Edition::One => plan.fit(&Clearance(EditionOne), units, bays),
        Edition::Two => plan.fit(&Clearance(EditionTwo), units, bays),
    }
}

// The plan that is saved in `bytes`, fitted.
pub(crate) fn fitted_plan(lawful: &LawfulJob, bytes: &[u8]) -> Plan
    requires { bytes.now ≡ plan_bytes (form lawful.now.job.now).struck }
    ensures { held result ≡ fitted_ledger (form lawful.now.job.now) None }
{
    let mut plan = Plan::new();
    let Ok(()) = plan.open(bytes) else {
        unreachable()
    };
    let Ok(()) = fit_plan(&mut plan, lawful) else {
        unreachable()
    };
    plan
}
