// Lists the placements of a job.
ghost use Rattle.std.specs.Prelude.{◌≡◌, if◌then◌else◌, None, codes};
ghost use Rattle.plans.specs.Step.{view as held};
ghost use Rattle.jobs.specs.Form.{view as form};
ghost use Rattle.listings.specs.Text.{Writes};
ghost use Rattle.listings.specs.Fitted.{fitted_ledger};
ghost use Rattle.listings.specs.JobText.{WritesListing};

use crate::lawful::LawfulJob;
use crate::put::write_line;
use consistency::ArcConsistency;
use degree::Degree;
use filters::Then;
use placements::Problem;
use plans::plan::Plan;
use sources::JointTable;
use text::Text;

// How many placements a text lists at most.
const MOST: usize = 20;

// Whether there are further placements, behind those that are listed.
fn write_last(text: &mut Text, further: bool) -> Option<()>
    ensures { Writes (if further then codes "more\n" else codes "end\n") text.old text.new result }
{
    if further {
        text.put(b"more\n")
    } else {
        text.put(b"end\n")
    }
}

pub(crate) fn write_listing(text: &mut Text, mut plan: Plan, lawful: &LawfulJob) -> Option<()>
    requires { held plan ≡ fitted_ledger (form lawful.now.job.now) None }
    ensures { WritesListing (form lawful.now.job.now) text.old text.new result }
{
    let job = lawful.job;
    let problem = Problem {
        arrangement: &JointTable::new(job.arrangement.rows(), job.arrangement.columns()),
        room: &JointTable::new(job.room.rows(), job.room.columns()),
        strict: job.mode.is_strict(),
    };
    let filter = Then {
        first: Degree,
        second: ArcConsistency,
    };
    let units = job.struck.rows().len();
    let mut bays = [0; 24];
    // Whether `bays` holds a placement that is not listed yet. The calls of the plan write it there and answer only their tries, and one
    // that declines leaves the old one, so the answer alone says it.
    let mut found = plan.seek(&problem, &filter, &mut bays).is_ok();
    // The number of a line is not used: an iterator of placements would hold the plan, and still have to say whether one is left.
    for _listed in 0..MOST {
        if !found {
            break;
        }
        write_line(text, &bays[..units])?;
        found = plan.further(&problem, &filter, &mut bays).is_ok();
    }
    write_last(text, found)
}
