// The job call for programs in C, as a static library over the library that has it.
#![tactic(auto)]

ghost use Rattle.std.specs.Prelude.{◌<◌, ◌≤◌, length};
ghost use Rattle.listings.specs.JobText.{OneText};
ghost use Rattle.listings_c.specs.Answer.{Declined, Answered};

use refusals::Reason;

// What a job call answers: 0 and the length of the text, or the number of the refusal and no text. Numbers, since C has no Result.
#[derive(Clone, Copy)]
#[repr(C)]
pub struct JobAnswer {
    pub declined: u32,
    pub written: usize,
}

impl From<Result<usize, Reason>> for JobAnswer {
    ghost use Rattle.std.specs.Prelude.{◌≡◌};
    ghost use Rattle.listings_c.specs.Answer.{in_c};

    ghost from_gives = { λ answer r. r ≡ in_c answer };

    fn from(answer: Result<usize, Reason>) -> JobAnswer {
        match answer {
            Ok(written) => JobAnswer {
                declined: 0,
                written,
            },
            Err(reason) => JobAnswer {
                declined: u32::from(u8::from(reason)),
                written: 0,
            },
        }
    }
}

// Writes the text of the job that the input holds.
#[unsafe(no_mangle)]
pub extern "C" fn planbench_job(input: &[u8], output: &mut [u8]) -> JobAnswer
    ensures short { length output.old < 1536 → Declined output.old output.new result }
    ensures enough { 1536 ≤ length output.old → Answered input.now output.old output.new result }
    ensures within { result.written ≤ 1536 }
    ensures one_text { OneText }
{
    JobAnswer::from(listings::planbench_job(input, output))
}

#[cfg(test)]
mod tests {
    use crate::JobAnswer;
    use refusals::Reason;

    #[test]
    fn in_c(rt: HostRuntime) {
        let listed = JobAnswer::from(Ok(54));
        assert_eq!(rt; listed.declined, 0);
        assert_eq!(rt; listed.written, 54);
        let declined = JobAnswer::from(Err(Reason::NoRoom));
        assert_eq!(rt; declined.declined, 18);
        assert_eq!(rt; declined.written, 0);
    }
}
