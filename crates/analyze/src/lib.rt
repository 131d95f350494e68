// `analyze_tstd` as a caller has it: the work, the row of chain figures and the report are lent. The replay itself is tstd's.
#![tactic(auto)]

ghost use Rattle.std.specs.Prelude.{◌≡◌, ◌≤◌, length};
ghost use Rattle.analyze.specs.Analyze.{written, lending, Analyzed};

use answer::Figures;
use error::Refusal;
use profile::TStdConfig;
use report::{TStdChainStats, TStdReport};

// The figures' records in use go to the front of the row, and the others of the row stay.
#[tactic(auto, unfolding(crate::specs::Analyze::written))]
fn fill_row(row: &mut [TStdChainStats], figures: Figures)
    requires { (figures.count ≤ 9) × (figures.count ≤ length row.old) }
    ensures { row.new ≡ written figures row.old }
{
    let n = figures.count;
    row[..n].copy_from_slice(&figures.rows[..n]);
}

// Ok is an accepted recording: its report, and its figures at the front of the row. A refusal leaves both as they were.
// Ruled out: the row handed back untouched with Ok; a cleared report with a refusal.
pub fn analyze_tstd(
    bytes: &[u8],
    config: TStdConfig,
    times: &mut [f64],
    places: &mut [u64],
    row: &mut [TStdChainStats],
    report: &mut TStdReport,
) -> Result<(), Refusal>
    ensures { Analyzed bytes.now config
        (lending times.old places.old row.old report.old)
        (lending times.new places.new row.new report.new) result }
{
    let out = tstd::replay(bytes, config, times, places, row.len(), *report);
    *report = out.report;
    let figures = out.outcome?;
    fill_row(row, figures);
    Ok(())
}
