// The filter program: a source on standard input, its translation or an R: record on standard output.
// All that matters is `filter_print::filter::filter_translate`, a proved function on bytes; this program only reads and writes.

#![tactic(auto)]

ghost use Rattle.std.specs.Prelude.{◌≤◌, IfOk, length};

use filter_print::filter::{INPUT, OUTPUT, filter_translate};
use std::io;
use std::io::{Read, Write};

// Reads until `buf` is full or the input ends, and answers how many bytes it put at the start of `buf`.
fn read_full<R: Read>(from: &mut R, buf: &mut [u8]) -> io::Result<usize>
    ensures { IfOk result (λ n. n ≤ length buf.new) }
{
    let mut done = 0;
    // No count: each read says how much came.
    while done < buf.len() {
        let n = from.read(&mut buf[done..])?;
        if n == 0 {
            break;
        }
        done += n;
    }
    Ok(done)
}

fn main(rt: HostRuntime) -> io::Result<()> {
    let mut input = [0u8; INPUT];
    let mut output = [0u8; OUTPUT];
    let got = read_full(&mut rt.stdin(), &mut input)?;
    let length = filter_translate(&input, got, &mut output);
    rt.stdout().write_all(&output[..length])
}
