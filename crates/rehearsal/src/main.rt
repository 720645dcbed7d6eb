// The rehearsal program: five lines from standard input, and what `rehearse` makes of them to standard output.
// Five lines that can be read have at most 327,680 bytes, so of a longer input no more is read: one of its lines is too long or not ended.
#![tactic(auto)]

ghost use Rattle.std.specs.Prelude.{◌≤◌, length};

use std::io;
use std::io::Read;

// How many lines end in these bytes.
fn ends(bytes: &[u8]) -> usize
    ensures { result ≤ length bytes.now }
{
    let mut n = 0;
    for i in 0..bytes.len() {
        if bytes[i] == b'\n' {
            n += 1;
        }
    }
    n
}

// Reads until the fifth line has ended, the input ends, or the bytes are full. The answer is how many bytes came; a failed read is the input's end.
fn read_lines(input: &mut impl Read, bytes: &mut [u8]) -> usize
    requires { length bytes.old ≤ 327680 }
    ensures { result ≤ length bytes.new }
{
    let mut n = 0;
    let mut lines = 0;
    while lines < 5 {
        let got = input.read(&mut bytes[n..]).unwrap_or(0);
        if got == 0 {
            break;
        }
        lines += ends(&bytes[n..n + got]);
        n += got;
    }
    n
}

fn main(rt: HostRuntime) -> io::Result<()> {
    let mut bytes = [0u8; 327680];
    let mut out = [0u8; 81920];
    let n = read_lines(&mut rt.stdin(), &mut bytes);
    let printed = rehearse::rehearse(&bytes[..n], &mut out);
    rt.write_all(&out[..printed])
}
