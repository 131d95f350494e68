// `lines::write` of answers made by hand: refusals, the nine packets of document 01, every kind of violation, times about zero, and a
// text that is cut. `stdout` was worked out apart from this program.
#![tactic(auto)]

use answer::{Answer, Figures};
use error::Refusal;
use report::{TStdChainStats, TStdReport, TStdViolation};
use std::io;

fn show(rt: &impl Print, answer: Answer) -> io::Result<()> {
    let mut out = [0u8; 8618];
    let n = lines::write(answer, &mut out);
    rt.write_all(&out[..n])
}

// In 12 bytes of dots, all of which are printed.
fn show_cut(rt: &impl Print, answer: Answer) -> io::Result<()> {
    let mut out = [b'.'; 12];
    let n = lines::write(answer, &mut out);
    rt.write_all(&out)?;
    println!(rt; " {n}")
}

fn accepted(report: TStdReport, figures: Figures) -> Answer {
    Answer {
        outcome: Ok(figures),
        report,
    }
}

fn refusals(rt: &impl Print) -> io::Result<()> {
    let report = TStdReport::new();
    show(rt, Answer::refused(report, Refusal::NoPacketLayout))?;
    show(
        rt,
        Answer::refused(report, Refusal::RateOutsideLimits { sample: 10 }),
    )?;
    show(
        rt,
        Answer::refused(
            report,
            Refusal::QueueFull {
                packet: u64::MAX,
                pid: 300,
            },
        ),
    )?;
    show_cut(
        rt,
        Answer::refused(report, Refusal::RepeatedPcr { sample: 1234 }),
    )?;
    show_cut(rt, Answer::refused(report, Refusal::TooFewPcrs))
}

fn nine_packets(rt: &impl Print) -> io::Result<()> {
    let mut report = TStdReport::new();
    report.pcr_samples = 2;
    report.modelled_seconds = 0.826171875;
    let unused = TStdChainStats::new(0);
    let mut rows = [unused; 9];
    rows[0] = TStdChainStats::new(257);
    show(rt, accepted(report, Figures { rows, count: 2 }))
}

fn with_events(mut report: TStdReport, events: &[TStdViolation]) -> TStdReport {
    for &event in events {
        report = report.record(event).report;
    }
    report
}

// Kinds without a decode time.
fn peaks() -> TStdReport {
    with_events(
        TStdReport::new(),
        &[
            TStdViolation::TbOverflow {
                pid: 257,
                peak_bytes: 600,
            },
            TStdViolation::TbBusyOverOneSecond {
                pid: 258,
                seconds: 1.5,
            },
            TStdViolation::MainOverflow {
                pid: 259,
                peak_bytes: 4000,
                limit: 3584,
            },
            TStdViolation::MbOverflow {
                pid: 261,
                peak_bytes: u64::MAX,
                limit: 10000,
            },
            TStdViolation::MbBusyOverOneSecond {
                pid: 262,
                seconds: 2.0000009,
            },
            TStdViolation::BsysOverflow { peak_bytes: 1537 },
        ],
    )
}

// Decode times of -1.5 and -0.5 microseconds, of either zero, and -200,000 s.
fn times(report: TStdReport) -> TStdReport {
    with_events(
        report,
        &[
            TStdViolation::MainUnderflow {
                pid: 260,
                decode_time: -0.0000015,
                missing_bytes: 7,
            },
            TStdViolation::EbUnderflow {
                pid: 263,
                decode_time: -0.0000005,
                missing_bytes: 1,
            },
            TStdViolation::EbUnderflow {
                pid: 264,
                decode_time: -0.0,
                missing_bytes: 2,
            },
            TStdViolation::EbUnderflow {
                pid: 265,
                decode_time: 0.0,
                missing_bytes: 3,
            },
            TStdViolation::DelayOverOneSecond {
                pid: 8191,
                decode_time: -200000.0,
                delay_seconds: 1.25,
            },
        ],
    )
}

fn violations(rt: &impl Print) -> io::Result<()> {
    let mut report = times(peaks());
    report.violation_events = 1000;
    report.pcr_samples = 3;
    report.modelled_seconds = 12345.678901;
    let unused = TStdChainStats::new(0);
    let mut rows = [unused; 9];
    rows[0] = TStdChainStats {
        pid: 8191,
        peak_tb_bytes: 513,
        peak_main_bytes: 4096,
        peak_eb_bytes: 10,
        access_units: 99,
        max_delay_seconds: 0.9999999,
    };
    show(rt, accepted(report, Figures { rows, count: 1 }))?;
    show_cut(rt, accepted(report, Figures { rows, count: 1 }))
}

// What no replay gives: infinities, a not-a-number, and more records in use than there are.
fn outside(rt: &impl Print) -> io::Result<()> {
    let mut report = TStdReport::new();
    report.modelled_seconds = f64::NEG_INFINITY;
    let mut unused = TStdChainStats::new(7);
    unused.max_delay_seconds = f64::NAN;
    let mut rows = [unused; 9];
    rows[8].max_delay_seconds = f64::INFINITY;
    show(rt, accepted(report, Figures { rows, count: 10 }))
}

fn main(rt: HostRuntime) -> io::Result<()> {
    refusals(&rt)?;
    nine_packets(&rt)?;
    violations(&rt)?;
    outside(&rt)
}
