// The figures of the chains when the streams are at their ends: a record per stream, and one for the system chain.
ghost use Rattle.std.specs.Prelude.{◌≡◌, ◌<◌, ◌≤◌, ◌++◌};
ghost use Rattle.answer.specs.Answer.{figures_of};
ghost use Rattle.profile.specs.Config.{streams_of};
ghost use Rattle.tstd.specs.Figures.{stream_row, system_row, rows_from, system_rows};

use crate::chain::{Branch, Chain};
use crate::front::SystemChain;
use answer::Figures;
use profile::config::TStdConfig;
use report::TStdChainStats;

// The peaks are whole bytes, toward zero; a branch without an elementary stream buffer has none there.
#[tactic(auto, unfolding(crate::specs::Figures::row_by))]
fn stream_row(pid: u16, chain: Chain) -> TStdChainStats
    ensures { result ≡ stream_row pid chain }
{
    match chain.branch {
        Branch::Main(_, b) => TStdChainStats {
            pid,
            peak_tb_bytes: ieee::to_u64(chain.tb.peak),
            peak_main_bytes: ieee::to_u64(b.peak),
            peak_eb_bytes: 0,
            access_units: b.units.access_units,
            max_delay_seconds: b.units.max_delay_seconds,
        },
        Branch::Video(_, v) => TStdChainStats {
            pid,
            peak_tb_bytes: ieee::to_u64(chain.tb.peak),
            peak_main_bytes: ieee::to_u64(v.leak.mb_peak),
            peak_eb_bytes: ieee::to_u64(v.leak.flow.eb_peak),
            access_units: v.units.access_units,
            max_delay_seconds: v.units.max_delay_seconds,
        },
    }
}

#[tactic(auto, unfolding(crate::specs::Figures::system_row), using(summary::proofs::OfKind::first_system_pid))]
fn system_row(config: TStdConfig, system: SystemChain) -> TStdChainStats
    requires { 0 < config.system_count }
    ensures { result ≡ system_row config system }
{
    TStdChainStats {
        pid: config.system_pids[0],
        peak_tb_bytes: ieee::to_u64(system.tb.peak),
        peak_main_bytes: ieee::to_u64(system.branch.peak),
        peak_eb_bytes: 0,
        access_units: 0,
        max_delay_seconds: 0.0,
    }
}

// At most eight streams: see `accepted`.
pub(crate) fn figures(config: TStdConfig, chains: [Chain; 8], system: SystemChain) -> Figures
    requires { config.stream_count ≤ 8 }
    ensures { result ≡ figures_of (rows_from 0 (streams_of config) chains ++ system_rows config system) }
{
    let n = config.stream_count;
    let mut rows = [TStdChainStats::new(0); 9];
    for i in 0..n {
        rows[i] = stream_row(config.streams[i].pid, chains[i]);
    }
    if config.system_count == 0 {
        return Figures { rows, count: n };
    }
    rows[n] = system_row(config, system);
    Figures { rows, count: n + 1 }
}
