// The violations of H.222.0 2.4.2.6 that a replay finds, what each one tells, and the worse of two of one kind.
ghost use Rattle.std.specs.Prelude.{◌≡◌};
ghost use Rattle.report.specs.Violation.{fields_of, in_bytes, in_seconds, key_of, worse, with_figure, merge_of};

use TStdViolation::*;

#[derive(Clone, Copy)]
pub enum TStdViolation {
    TbOverflow {
        pid: u16,
        peak_bytes: u64,
    },
    TbBusyOverOneSecond {
        pid: u16,
        seconds: f64,
    },
    MainOverflow {
        pid: u16,
        peak_bytes: u64,
        limit: usize,
    },
    MainUnderflow {
        pid: u16,
        decode_time: f64,
        missing_bytes: u64,
    },
    MbOverflow {
        pid: u16,
        peak_bytes: u64,
        limit: usize,
    },
    MbBusyOverOneSecond {
        pid: u16,
        seconds: f64,
    },
    EbUnderflow {
        pid: u16,
        decode_time: f64,
        missing_bytes: u64,
    },
    DelayOverOneSecond {
        pid: u16,
        decode_time: f64,
        delay_seconds: f64,
    },
    BsysOverflow {
        peak_bytes: u64,
    },
}

// What was measured: a peak or missing bytes, or the seconds of a busy stretch or a delay.
#[derive(Clone, Copy)]
pub enum Figure {
    Bytes(u64),
    Seconds(f64),
}

// A violation field by field. A field that its kind lacks is 0.
#[derive(Clone, Copy)]
pub struct ViolationFields {
    // The number that text and C words tell: the enum of kinds is `TStdViolation`, and a second one of the nine would be its twin.
    pub kind: u8,
    pub pid: u16,
    pub limit: usize,
    pub decode_time: f64,
    pub figure: Figure,
}

// A report has one line for each key.
#[derive(Clone, Copy, PartialEq, Eq)]
pub struct Key {
    pub kind: u8,
    pub pid: u16,
}

// The fields of a kind whose figure is in bytes, and of one whose figure is in seconds.
fn in_bytes(kind: u8, pid: u16, limit: usize, time: f64, bytes: u64) -> ViolationFields
    ensures { result ≡ in_bytes kind pid limit time bytes }
{
    ViolationFields {
        kind,
        pid,
        limit,
        decode_time: time,
        figure: Figure::Bytes(bytes),
    }
}

fn in_seconds(kind: u8, pid: u16, time: f64, seconds: f64) -> ViolationFields
    ensures { result ≡ in_seconds kind pid time seconds }
{
    ViolationFields {
        kind,
        pid,
        limit: 0,
        decode_time: time,
        figure: Figure::Seconds(seconds),
    }
}

impl TStdViolation {
    // What the line, the C boundary and a log tell of a violation. Ruled out: a limit or a decode time for a kind
    // that has none; the decode time in the place of the delay.
    #[tactic(auto, unfolding(crate::specs::Violation::fields_of))]
    pub fn fields(self) -> ViolationFields
        ensures { result ≡ fields_of self }
    {
        match self {
            TbOverflow { pid, peak_bytes } => in_bytes(0, pid, 0, 0.0, peak_bytes),
            TbBusyOverOneSecond { pid, seconds } => in_seconds(1, pid, 0.0, seconds),
            MainOverflow {
                pid,
                peak_bytes,
                limit,
            } => in_bytes(2, pid, limit, 0.0, peak_bytes),
            MainUnderflow {
                pid,
                decode_time,
                missing_bytes,
            } => in_bytes(3, pid, 0, decode_time, missing_bytes),
            MbOverflow {
                pid,
                peak_bytes,
                limit,
            } => in_bytes(4, pid, limit, 0.0, peak_bytes),
            MbBusyOverOneSecond { pid, seconds } => in_seconds(5, pid, 0.0, seconds),
            EbUnderflow {
                pid,
                decode_time,
                missing_bytes,
            } => in_bytes(6, pid, 0, decode_time, missing_bytes),
            DelayOverOneSecond {
                pid,
                decode_time,
                delay_seconds,
            } => in_seconds(7, pid, decode_time, delay_seconds),
            BsysOverflow { peak_bytes } => in_bytes(8, 0, 0, 0.0, peak_bytes),
        }
    }

    // Ruled out: two kinds with one number; a PID other than 0 for BsysOverflow.
    #[tactic(auto, unfolding(crate::specs::Violation::key_of))]
    pub fn key(self) -> Key
        ensures { result ≡ key_of self }
    {
        let f = self.fields();
        Key {
            kind: f.kind,
            pid: f.pid,
        }
    }
}

impl Figure {
    // The larger of the two; one of bytes and one of seconds leave the first.
    #[tactic(auto, unfolding(crate::specs::Violation::worse))]
    fn worse(self, other: Figure) -> Figure
        ensures { result ≡ worse self other }
    {
        match (self, other) {
            (Figure::Bytes(x), Figure::Bytes(y)) => Figure::Bytes(x.max(y)),
            (Figure::Seconds(x), Figure::Seconds(y)) => Figure::Seconds(ieee::max_num(x, y)),
            _ => self,
        }
    }
}

// The violation with another figure in bytes, where its kind has one. Apart from the one in seconds, since functions stay within
// forty lines.
#[tactic(auto, unfolding(crate::specs::Violation::with_figure))]
fn with_bytes(v: TStdViolation, bytes: u64) -> TStdViolation
    ensures { result ≡ with_figure v (Figure.Bytes bytes) }
{
    match v {
        TbOverflow { pid, .. } => TbOverflow {
            pid,
            peak_bytes: bytes,
        },
        MainOverflow { pid, limit, .. } => MainOverflow {
            pid,
            peak_bytes: bytes,
            limit,
        },
        MainUnderflow {
            pid,
            decode_time,
            ..
        } => MainUnderflow {
            pid,
            decode_time,
            missing_bytes: bytes,
        },
        MbOverflow { pid, limit, .. } => MbOverflow {
            pid,
            peak_bytes: bytes,
            limit,
        },
        EbUnderflow {
            pid,
            decode_time,
            ..
        } => EbUnderflow {
            pid,
            decode_time,
            missing_bytes: bytes,
        },
        BsysOverflow { .. } => BsysOverflow { peak_bytes: bytes },
        _ => v,
    }
}

// The violation with another figure in seconds, where its kind has one.
#[tactic(auto, unfolding(crate::specs::Violation::with_figure))]
fn with_seconds(v: TStdViolation, seconds: f64) -> TStdViolation
    ensures { result ≡ with_figure v (Figure.Seconds seconds) }
{
    match v {
        TbBusyOverOneSecond { pid, .. } => TbBusyOverOneSecond { pid, seconds },
        MbBusyOverOneSecond { pid, .. } => MbBusyOverOneSecond { pid, seconds },
        DelayOverOneSecond {
            pid,
            decode_time,
            ..
        } => DelayOverOneSecond {
            pid,
            decode_time,
            delay_seconds: seconds,
        },
        _ => v,
    }
}

// The first of the two, with the worse of their figures where they are of one kind.
// Ruled out: the smaller figure; the second's decode time, or limit, beside the first's PID.
#[tactic(auto, using(crate::proofs::Merge::merge_like, crate::proofs::Merge::merge_unlike))]
pub fn merge_worse(a: TStdViolation, b: TStdViolation) -> TStdViolation
    ensures { result ≡ merge_of a b }
{
    let first = a.fields();
    let second = b.fields();
    if first.kind != second.kind {
        return a;
    }
    match first.figure.worse(second.figure) {
        Figure::Bytes(bytes) => with_bytes(a, bytes),
        Figure::Seconds(seconds) => with_seconds(a, seconds),
    }
}
