// The C boundary of the replay: numbers and slices of numbers only. `exports_c` has it as a static library.
#![tactic(auto)]

ghost use Rattle.std.specs.Prelude.{◌≡◌};
ghost use Rattle.exports.specs.Exports.{profile_for, Answered, Exported};

use answer::Answer;
use error::Refusal;
use profile::{Limits, TStdConfig};
use report::TStdReport;

// Number 1 comes before number 2 also where the report has another length.
#[tactic(auto, unfolding(crate::specs::Exports::profile_for, words::specs::Config::config_of))]
fn profile_for(profile: &[u64], report_len: usize) -> Result<TStdConfig, Refusal>
    ensures { result ≡ profile_for profile.now report_len }
{
    let config = words::profile_of(profile)?;
    if !profile::in_limits(config, Limits::replay()) {
        return Err(Refusal::OutsideLimits);
    }
    if report_len != words::REPORT_WORDS {
        return Err(Refusal::WorkTooShort);
    }
    Ok(config)
}

fn answer(
    bytes: &[u8],
    profile: &[u64],
    times: &mut [f64],
    places: &mut [u64],
    row_len: usize,
    report_len: usize,
) -> Answer
    ensures { Answered bytes.now profile.now times.old places.old row_len report_len result times.new places.new }
{
    let before = TStdReport::new();
    match profile_for(profile, report_len) {
        Ok(config) => tstd::replay(bytes, config, times, places, row_len, before),
        Err(refusal) => Answer::refused(before, refusal),
    }
}

// A replay with the profile of 69 words, told in the answer's word, six words of the row for each chain and the 324 words of the report.
// Ruled out: a row or report changed by a refusal; number 2 for a profile outside its limits.
#[unsafe(no_mangle)]
pub extern "C" fn tstd_replay(
    bytes: &[u8],
    profile: &[u64],
    times: &mut [f64],
    places: &mut [u64],
    row: &mut [u64],
    report: &mut [u64],
) -> u64
    ensures { Exported bytes.now profile.now times.old places.old row.old report.old result times.new places.new row.new report.new }
{
    let told = answer(
        bytes,
        profile,
        times,
        places,
        row.len() / words::ROW_WORDS,
        report.len(),
    );
    words::write_answer(told, row, report)
}
