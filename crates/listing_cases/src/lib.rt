// Cases of the job call: what the text ends with, and what the buffer keeps.
#![tactic(auto)]

ghost use Rattle.std.specs.Prelude.{◌≡◌, ◌+◌, ◌*◌};

#[cfg(test)]
mod tests {
    use listings::planbench_job;

    // One unit of kind 0 in a room of so many bays without joints.
    fn job_in<const N: usize>(bays: u8) -> [u8; N]
        requires { N ≡ 35 + 2 * bays }
    {
        let mut bytes = [0; N];
        bytes[1] = 1;
        bytes[3] = 1;
        bytes[4] = 1;
        bytes[13] = bays;
        bytes[14] = bays;
        let plan_at = 24 + 2 * usize::from(bays);
        bytes[plan_at] = 2;
        bytes[plan_at + 1] = 1;
        bytes[plan_at + 2] = bays;
        bytes
    }

    // Twenty placements are all of them: ten lines of two bytes, ten of three, and the last.
    #[test]
    fn twenty_then_end(rt: HostRuntime) {
        let mut out = [7; 1536];
        let answer = planbench_job(&job_in::<75>(20), &mut out);
        assert_eq!(rt; answer, Ok(54));
        assert_eq!(rt; out[47], b'1');
        assert_eq!(rt; out[48], b'9');
        assert_eq!(rt; out[49], b'\n');
        assert_eq!(rt; out[50], b'e');
        assert_eq!(rt; out[53], b'\n');
        assert_eq!(rt; out[54], 7);
    }

    #[test]
    fn twenty_first_is_not_listed(rt: HostRuntime) {
        let mut out = [7; 1536];
        let answer = planbench_job(&job_in::<77>(21), &mut out);
        assert_eq!(rt; answer, Ok(55));
        assert_eq!(rt; out[50], b'm');
        assert_eq!(rt; out[55], 7);
    }

    // A short buffer is declined before the bytes are looked at.
    #[test]
    fn short_buffer(rt: HostRuntime) {
        let mut out = [7; 1535];
        let answer = planbench_job(&[9], &mut out);
        assert_eq!(rt; answer.map_err(|reason| u8::from(reason)), Err(18));
        assert_eq!(rt; out[0], 7);
    }

    #[test]
    fn refused(rt: HostRuntime) {
        let mut out = [7; 1536];
        let answer = planbench_job(&[0, 3, 0], &mut out);
        assert_eq!(rt; answer, Ok(15));
        assert_eq!(rt; out[8], b'1');
        assert_eq!(rt; out[9], b'2');
        assert_eq!(rt; out[11], b'3');
        assert_eq!(rt; out[13], b'1');
        assert_eq!(rt; out[15], 7);
    }
}
