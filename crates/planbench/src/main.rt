// Reads a job from standard input, at most 4096 bytes, and writes its text.
#![tactic(auto)]

ghost use Rattle.std.specs.Prelude.{◌≤◌, length, IfOk};

use listings::planbench_job;
use std::io;
use std::io::Read;

// Fills the buffer from its start until it is full or the input ends, and answers how much it holds. std's `read_to_end` wants a
// Vec, and reads again where a read was interrupted; here each error is passed on.
fn fill<R: Read>(from: &mut R, buffer: &mut [u8]) -> io::Result<usize>
    ensures { IfOk result (λ n. n ≤ length buffer.new) }
{
    let mut len = 0;
    for _ in 0..buffer.len() {
        let n = from.read(&mut buffer[len..])?;
        if n == 0 {
            break;
        }
        len += n;
    }
    Ok(len)
}

fn main(rt: HostRuntime) -> io::Result<()> {
    let mut input = [0u8; 4096];
    let mut output = [0u8; 1536];
    let len = fill(&mut rt.stdin(), &mut input)?;
    let Ok(written) = planbench_job(&input[..len], &mut output) else {
        unreachable()
    };
    rt.stdout().write_all(&output[..written])
}
