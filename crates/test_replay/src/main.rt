// Replays a sample of the crate's answers: reads what was asked, and prints what reading it answers here. `stdout` has what the crate
// answered; compare/README.md says how both files were made, and what a line of each has.
#![tactic(auto)]

mod asked;
mod told;

ghost use Rattle.std.specs.Prelude.{◌≤◌, length, IfOk};

use std::io;
use std::io::Read;

// Reads until `buf` is full or the input ends, and answers how many bytes it has then.
fn read_full<R: Read>(reader: &mut R, buf: &mut [u8]) -> io::Result<usize>
    ensures { IfOk result (λ n. n ≤ length buf.new) }
{
    let mut got = 0;
    while got < buf.len() {
        let n = reader.read(&mut buf[got..])?;
        if n == 0 {
            break;
        }
        got += n;
    }
    Ok(got)
}

// The first number says how many questions follow.
fn replay_all(rt: &impl Print, input: &[u8]) -> io::Result<()> {
    let mut count = [0u32; 1];
    let mut left = asked::numbers(input, 1, &mut count);
    for _ in 0..count[0] {
        left = told::replay(rt, left)?;
    }
    Ok(())
}

fn main(rt: HostRuntime) -> io::Result<()> {
    let mut input = [0u8; 131072];
    let got = read_full(&mut rt.reader(), &mut input)?;
    replay_all(&rt, &input[..got])
}
