// Cases of reading a job: the worked job, and each refusal that a job can meet.
#![tactic(auto)]

#[cfg(test)]
mod tests {
    use jobs::{Edition, Mode, Unknown, read_job};
    use refusals::Told;
    use std::test::Fail;

    // Two joined units, a wall unit and a hob, and three bays in a line; edition 2, open use, nothing struck. One byte more stands
    // behind the 82 of the job.
    fn worked() -> [u8; 83] {
        *b"\0\x02\0\
            \x02\x02\x03\0\0\0\0\0\0\0\x02\0\0\0\0\0\0\0\x01\0\0\0\0\0\0\0\
            \x03\x03\x07\0\0\0\0\0\0\0\x02\0\0\0\0\0\0\0\x05\0\0\0\0\0\0\0\x02\0\0\0\0\0\0\0\
            \x01\x03\
            \xbc\x02\x20\x03\xbc\x02\
            \x02\x02\x03\0\0\0\0\0\0\0\0\0"
    }

    // The number, the layer and the place that an answer tells where it is a fault. Each crate of cases has it, as tests export nothing.
    fn told<T: Drop, F: Into<Told>>(answer: Result<T, F>) -> Option<(u8, u8, usize)> {
        let told: Told = answer.err()?.into();
        Some(told.numbers())
    }

    #[test]
    fn worked_job(rt: HostRuntime) -> Result<(), Fail> {
        let bytes = worked();
        let job = read_job(&bytes[0..82])?;
        assert_eq!(rt; job.mode, Mode::Open);
        assert_eq!(rt; job.edition, Edition::Two);
        assert!(rt; job.kinds().len() == 2);
        assert_eq!(rt; job.kinds()[1], 3);
        assert!(rt; job.heights().len() == 3);
        assert_eq!(rt; job.heights()[1], 800);
        assert_eq!(rt; job.plan_at, 71);
        Ok(())
    }

    #[test]
    fn numbers_of_the_head(rt: HostRuntime) {
        assert_eq!(rt; Mode::try_from(1).ok(), Some(Mode::Strict));
        assert_eq!(rt; Mode::try_from(2).err(), Some(Unknown));
        assert_eq!(rt; Edition::try_from(1).ok(), Some(Edition::One));
        assert_eq!(rt; Edition::try_from(0).err(), Some(Unknown));
    }

    // One byte of the worked job changed: its place, the byte, and what is told.
    #[test]
    fn one_byte_changed(rt: HostRuntime) {
        let cases = [
            (0, 2, (12, 3, 0)),
            (1, 3, (12, 3, 1)),
            (2, 1, (12, 3, 1)),
            (3, 65, (13, 1, 3)),
            (5, 7, (14, 1, 5)),
            (13, 0, (15, 1, 13)),
            (14, 1, (16, 1, 14)),
            (13, 1, (10, 2, 3)),
            (30, 65, (13, 1, 30)),
            (47, 4, (10, 2, 29)),
            (71, 3, (12, 2, 71)),
            (73, 65, (13, 1, 73)),
            (81, 1, (14, 1, 81)),
            (72, 25, (1, 2, 72)),
            (73, 0, (1, 2, 72)),
            (72, 3, (6, 3, 72)),
            (73, 2, (6, 3, 72)),
        ];
        for (at, byte, expected) in cases {
            let mut bytes = worked();
            assert!(rt; at < 82);
            bytes[at] = byte;
            assert_eq!(rt; told(read_job(&bytes[0..82])), Some(expected));
        }
    }

    // The worked job cut short: its length, and what is told.
    #[test]
    fn cut_short(rt: HostRuntime) {
        let cases = [
            (0, (11, 3, 0)),
            (2, (11, 3, 2)),
            (3, (11, 1, 3)),
            (28, (11, 1, 28)),
            (29, (11, 1, 29)),
            (63, (11, 3, 63)),
            (64, (11, 3, 64)),
            (70, (11, 3, 70)),
            (71, (11, 2, 71)),
            (72, (11, 1, 72)),
            (81, (11, 1, 81)),
        ];
        for (length, expected) in cases {
            let bytes = worked();
            assert!(rt; length <= 82);
            assert_eq!(rt; told(read_job(&bytes[0..length])), Some(expected));
        }
    }

    // A byte too many is told before sizes that differ.
    #[test]
    fn byte_left(rt: HostRuntime) {
        let mut bytes = worked();
        bytes[72] = 3;
        assert_eq!(rt; told(read_job(&bytes)), Some((17, 2, 82)));
    }
}
