// A job with the fact that it is lawful, as whatever reads a job finds it.
ghost use Rattle.jobs.specs.Form.{JobLawful, view as form};

use jobs::Job;

#[derive(Clone, Copy)]
pub(crate) struct LawfulJob<'a> {
    pub(crate) job: &'a Job,
    ghost lawful: { JobLawful (form job.now) },
}
