// The job call, which the crate for programs in C exports.
ghost use Rattle.std.specs.Prelude.{◌≡◌, ◌<◌, ◌≤◌, length, IfOk};
ghost use Rattle.listings.specs.JobText.{WritesJob, Declined, Answered, OneText};

use crate::lawful::LawfulJob;
use crate::list::write_listing;
use crate::plan::fitted_plan;
use crate::put::write_refusal;
use jobs::read_job;
use refusals::Reason;
use text::Text;

// As many bytes as the buffer must have; every text is shorter.
const ROOM: usize = 1536;

// The listing of the job that the input holds, or why it holds none.
fn write_job(text: &mut Text, input: &[u8]) -> Option<()>
    ensures same { text.new.out.ghost_name ≡ text.old.out.ghost_name }
    ensures job { WritesJob input.now text.old text.new result }
{
    match read_job(input) {
        Ok(job) => {
            let plan_at = job.plan_at;
            let lawful = LawfulJob { job: &job };
            let plan = fitted_plan(&lawful, &input[plan_at..]);
            write_listing(text, plan, &lawful)
        }
        Err(fault) => write_refusal(text, fault.into()),
    }
}

// Writes the text of the job that the input holds and answers its length, or declines a buffer that is too short.
pub fn planbench_job(input: &[u8], output: &mut [u8]) -> Result<usize, Reason>
    ensures short { length output.old < 1536 → Declined output.old output.new result }
    ensures enough { 1536 ≤ length output.old → Answered input.now output.old output.new result }
    ensures within { IfOk result (λ written. written ≤ 1536) }
    ensures one_text { OneText }
{
    if output.len() < ROOM {
        return Err(Reason::NoRoom);
    }
    let mut text = Text::new(output);
    // No text is longer than the room, so each fits.
    write_job(&mut text, input).ok_or(Reason::NoRoom)?;
    Ok(text.len)
}
