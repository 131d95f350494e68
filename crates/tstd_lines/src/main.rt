// The line program of document 01: a recording of up to 32,768 bytes from standard input, and the text of its answer on standard output.
#![tactic(auto)]

use line_program::{INPUT, TEXT};
use reading::read_full;
use std::io;

fn main(rt: HostRuntime) -> io::Result<()> {
    let mut input = [0u8; INPUT];
    let n = read_full(&mut rt.reader(), &mut input)?;
    let mut out = [0u8; TEXT];
    let m = line_program::text_of(&input[..n], &mut out);
    rt.write_all(&out[..m])
}
