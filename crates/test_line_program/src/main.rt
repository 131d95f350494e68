// The line program on stored recordings: the name of each, and the lines that it gives. README.md says where `stdout` is from.
#![tactic(auto)]

use line_program::{INPUT, TEXT};
use reading::read_full;
use std::fs::File;
use std::io;

fn show(rt: &HostRuntime, name: &str) -> io::Result<()> {
    println!(rt; "{name}")?;
    let Ok(mut file) = File::open(rt, name) else {
        return println!(rt; "missing");
    };
    let mut input = [0u8; INPUT];
    let n = read_full(&mut file, &mut input)?;
    let mut out = [0u8; TEXT];
    let m = line_program::text_of(&input[..n], &mut out);
    rt.write_all(&out[..m])
}

fn main(rt: HostRuntime) -> io::Result<()> {
    for name in [
        "empty.ts",
        "no_layout.ts",
        "one_pcr.ts",
        "marked_second.ts",
        "marked_third.ts",
        "repeated.ts",
        "samples_64.ts",
        "samples_65.ts",
        "at_1000.ts",
        "slow.ts",
        "fast.ts",
        "queue_fits.ts",
        "queue_full.ts",
        "longest.ts",
        "too_long.ts",
        "negative.ts",
        "near_zero.ts",
        "below_zero.ts",
        "violations.ts",
        "layout_192.ts",
        "layout_204.ts",
        "wrap.ts",
        "real.ts",
    ] {
        show(&rt, name)?;
    }
    Ok(())
}
