use crate::head::{Edition, Mode};
use tables::Table;

// What a job's bytes hold. The kinds and heights lie in arrays of fixed length, and no `ArrayVec`, since a job is copied; of the
// kinds one counts for each row of the arrangement, of the heights one for each row of the room.
#[derive(Clone, Copy)]
pub struct Job {
    pub mode: Mode,
    pub edition: Edition,
    pub arrangement: Table,
    pub room: Table,
    pub(crate) kinds: [u8; 64],
    pub(crate) heights: [u16; 64],
    // The struck pairs of the saved plan, and the place of its first byte.
    pub struck: Table,
    pub plan_at: usize,
}
