// `ieee::to_u64` at the ends of its ranges, a line for each input. `stdout` has what Rust's `as u64` gives for the same list.
#![tactic(auto)]

use std::io;

fn main(rt: HostRuntime) -> io::Result<()> {
    let inputs = [
        f64::NAN,
        f64::NEG_INFINITY,
        -1e300,
        -18446744073709551616.0,
        -1.0,
        -0.5,
        -0.0,
        0.0,
        5e-324,
        0.5,
        0.9999999999999999,
        1.0,
        1.5,
        1.9999999999999998,
        2.0,
        2.9,
        4503599627370495.5,
        4503599627370496.0,
        4503599627370496.5,
        4503599627370497.0,
        9007199254740991.0,
        9007199254740992.0,
        9007199254740994.0,
        9223372036854775808.0,
        9223372036854777856.0,
        18446744073709549568.0,
        18446744073709551616.0,
        1e300,
        f64::INFINITY,
    ];
    for x in inputs {
        println!(rt; "{}", ieee::to_u64(x))?;
    }
    Ok(())
}
