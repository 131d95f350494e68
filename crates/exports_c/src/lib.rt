// The replay for C: the static library over `exports`, whose function and clause these are.
#![tactic(auto)]

ghost use Rattle.exports.specs.Exports.{Exported};

// Ruled out: what `exports::tstd_replay` rules out; row and report exchanged.
#[unsafe(no_mangle)]
pub extern "C" fn tstd_replay(
    bytes: &[u8],
    profile: &[u64],
    times: &mut [f64],
    places: &mut [u64],
    row: &mut [u64],
    report: &mut [u64],
) -> u64
    ensures { Exported bytes.now profile.now times.old places.old row.old report.old result times.new places.new row.new report.new }
{
    exports::tstd_replay(bytes, profile, times, places, row, report)
}
