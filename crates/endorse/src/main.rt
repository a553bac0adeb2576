// Reads clauses and a question from standard input, and prints one line: what comes of the question.
#![tactic(auto)]

ghost use Rattle.std.specs.Prelude.{◌≤◌, length, IfOk};

use line::{MOST_BYTES, line_for};
use std::io;
use std::io::Read;

// The bytes that are read: one more than is allowed shows that there are too many.
const ROOM: usize = MOST_BYTES + 1;

// Fills the buffer from standard input, and tells how many bytes came. A fixed buffer, filled turn by turn: to read to the end into a vector would take
// memory, which may be wanting.
fn read_all(rt: &HostRuntime, buffer: &mut [u8]) -> io::Result<usize>
    ensures { IfOk result (λ n. n ≤ length buffer.old) }
{
    let mut stdin = rt.stdin();
    let mut len = 0;
    for _ in 0..ROOM + 1 {
        let room = &mut buffer[len..];
        let n = stdin.read(room)?;
        if n == 0 {
            break;
        }
        len += n;
    }
    Ok(len)
}

fn main(rt: HostRuntime) -> io::Result<()> {
    let mut buffer = [0u8; ROOM];
    let len = read_all(&rt, &mut buffer)?;
    let line = line_for(rt.alloc(), &buffer[0..len])?;
    rt.print(line.as_str())
}
