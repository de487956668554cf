// The cards of a job, one a unit and one a bay.
ghost use Rattle.std.specs.Prelude.{◌≡◌};
ghost use Rattle.jobs.specs.Form.{view};

use crate::job::Job;

impl Job {
    pub fn kinds(&self) -> &[u8]
        ensures { result.now ≡ (view self.now).kinds }
    {
        &self.kinds[0..self.arrangement.rows().len()]
    }

    // Heights in mm.
    pub fn heights(&self) -> &[u16]
        ensures { result.now ≡ (view self.now).heights }
    {
        &self.heights[0..self.room.rows().len()]
    }
}
