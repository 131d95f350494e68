// The report of a replay, made once from the slots of its events: the violation of each slot that has events, in the order of
// their first events. Stream i has the six slots from 1 + 6 * i on, the system chain those from 49 on.
#![tactic(auto)]

ghost use Rattle.std.specs.Prelude.{◌≡◌};
ghost use Rattle.summary.specs.Violation.{overflow_in, underflow_in, chain_violation, system_pid, slot_violation};
ghost use Rattle.summary.specs.Next.{NextSlot};
ghost use Rattle.summary.specs.Summary.{summary};

use events::{Event, Slots};
use profile::{TStdBranch, TStdConfig};
use report::{TStdReport, TStdViolation, record_in};

#[tactic(auto, unfolding(crate::specs::Violation::overflow_in))]
fn overflow_in(branch: TStdBranch, pid: u16, peak_bytes: u64) -> TStdViolation
    ensures { result ≡ overflow_in branch pid peak_bytes }
{
    match branch {
        TStdBranch::Main { buffer_size } => TStdViolation::MainOverflow {
            pid,
            peak_bytes,
            limit: buffer_size,
        },
        TStdBranch::Video { mb_size, .. } => TStdViolation::MbOverflow {
            pid,
            peak_bytes,
            limit: mb_size,
        },
    }
}

#[tactic(auto, unfolding(crate::specs::Violation::underflow_in))]
fn underflow_in(branch: TStdBranch, pid: u16, decode_time: f64, missing_bytes: u64) -> TStdViolation
    ensures { result ≡ underflow_in branch pid decode_time missing_bytes }
{
    match branch {
        TStdBranch::Main { .. } => TStdViolation::MainUnderflow {
            pid,
            decode_time,
            missing_bytes,
        },
        TStdBranch::Video { .. } => TStdViolation::EbUnderflow {
            pid,
            decode_time,
            missing_bytes,
        },
    }
}

// The violation of an event of the chain with the PID; branch is that of its stream, and none for the system chain, whose events are those
// of its transport buffer and of Bsys.
#[tactic(auto, unfolding(crate::specs::Violation::chain_violation, events::specs::Event::figure_of))]
fn chain_violation(pid: u16, branch: Option<TStdBranch>, event: Event) -> TStdViolation
    ensures { result ≡ chain_violation pid branch event }
{
    match (branch, event) {
        (_, Event::TbOverflow(bytes)) => TStdViolation::TbOverflow {
            pid,
            peak_bytes: ieee::to_u64(bytes),
        },
        (_, Event::TbBusy(seconds)) => TStdViolation::TbBusyOverOneSecond { pid, seconds },
        (Some(b), Event::Overflow(bytes)) => overflow_in(b, pid, ieee::to_u64(bytes)),
        (
            Some(b),
            Event::Underflow {
                decode_time,
                missing,
            },
        ) => underflow_in(b, pid, decode_time, ieee::to_u64(missing)),
        (
            Some(_),
            Event::Delay {
                decode_time,
                seconds,
            },
        ) => TStdViolation::DelayOverOneSecond {
            pid,
            decode_time,
            delay_seconds: seconds,
        },
        (Some(_), Event::MbBusy(seconds)) => TStdViolation::MbBusyOverOneSecond { pid, seconds },
        (None, _) => TStdViolation::BsysOverflow {
            peak_bytes: ieee::to_u64(event.figure()),
        },
    }
}

#[tactic(auto, using(crate::proofs::OfKind::first_system_pid))]
fn system_pid(config: TStdConfig) -> u16
    ensures { result ≡ system_pid config }
{
    if config.system_count == 0 {
        0
    } else {
        config.system_pids[0]
    }
}

// The violation of slot k. Ruled out: EBn's size as the limit of MBn; the PID of a stream for the system chain.
#[tactic(auto, using(crate::proofs::OfKind::of_stream, crate::proofs::OfKind::of_system))]
pub fn violation(config: TStdConfig, k: usize, figure: f64, decode_time: f64) -> TStdViolation
    ensures { result ≡ slot_violation config k figure decode_time }
{
    let before = k.saturating_sub(1);
    let chain = before / 6;
    let event = Event::at(before % 6, figure, decode_time);
    if chain < 8 {
        let stream = config.streams[chain];
        chain_violation(stream.pid, Some(stream.model.branch), event)
    } else {
        chain_violation(system_pid(config), None, event)
    }
}

// The slot whose first event comes next behind event `after`. Of slots with one number, which no events leave, the lowest.
#[tactic(auto, using(crate::proofs::Next::scan_starts, crate::proofs::Next::scan_better, crate::proofs::Next::scan_other, crate::proofs::Next::scan_ends))]
fn next_slot(slots: &Slots, after: u64) -> Option<usize>
    ensures { NextSlot slots.now.firsts slots.now.events after result }
{
    let mut best = None;
    for k in 1..64 {
        let first = slots.firsts[k];
        let sooner = match best {
            Some(b) => first < slots.firsts[b],
            None => first <= slots.events,
        };
        if (after < first) & sooner {
            best = Some(k);
        }
    }
    best
}

// Ruled out: lines in the order of the slots; the count of lines as the count of events.
#[tactic(auto, using(crate::proofs::Summed::sum_starts, crate::proofs::Summed::sum_less))]
pub fn report_of(config: TStdConfig, slots: Slots) -> TStdReport
    ensures { result ≡ summary config slots }
{
    let mut report = TStdReport::new();
    let mut after = 0;
    while let Some(k) = next_slot(&slots, after) {
        let _ = record_in(
            &mut report,
            violation(config, k, slots.figures[k], slots.decode_times[k]),
        );
        after = slots.firsts[k];
    }
    report.violation_events = slots.events;
    report
}
