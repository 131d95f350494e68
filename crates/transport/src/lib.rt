// The transport buffer TBn (H.222.0, 2.4.2.3): what a packet, by the runs of its payload, delivers to the branch behind it.
// The bytes of a packet come from t0 to u, evenly over the span between.
#![tactic(auto)]

ghost use Rattle.std.specs.Prelude.{◌≡◌, ◌+◌, ◌^◌, ◌<◌};
ghost use Rattle.scanner.specs.State.{only_body};
ghost use Rattle.transport.specs.Arrive.{through, nothing, no_run, delivery, fits_in, arrive_in};
ghost use Rattle.transport.specs.Transport.{byte_time, stamp_answer};

use arrival::RateInterval;
use branch::{Delivered, Run};
use fifo::FluidFifo;
use scanner::Runs;

// The transport buffer behind a packet, and what the packet delivers.
#[derive(Clone, Copy)]
pub struct Arrived {
    pub tb: FluidFifo,
    pub delivered: Delivered,
}

// The transport buffer behind a run, and the run as it left.
#[derive(Clone, Copy)]
struct Through {
    tb: FluidFifo,
    run: Run,
}

// When the bytes of a packet come: from t0 on, evenly over the span.
#[derive(Clone, Copy)]
struct PacketTime {
    t0: f64,
    span: f64,
}

impl PacketTime {
    // When byte k comes: the Rust's `frac`.
    fn of_byte(self, k: usize) -> f64
        ensures { result ≡ byte_time self.t0 self.span k }
    {
        self.t0 + self.span * ieee::as_float(k as u64) / 188.0
    }
}

fn no_run() -> Run
    ensures { result ≡ no_run }
{
    Run::default()
}

// No stamp and no run: what an empty payload delivers. Ruled out: a stamp at time 0; a run of some bytes.
pub fn nothing_delivered() -> Delivered
    ensures { result ≡ nothing }
{
    let none = no_run();
    Delivered {
        decode_time: f64::NEG_INFINITY,
        first_input_time: 0.0,
        head: none,
        rest: none,
        body: none,
    }
}

fn stamp_time(interval: RateInterval, stamp: Option<u64>) -> f64
    ensures { result ≡ stamp_answer interval stamp }
{
    match stamp {
        Some(raw) => interval.decode_time(raw),
        None => f64::NEG_INFINITY,
    }
}

// A run of len bytes goes through the transport buffer; one of no bytes is none.
#[tactic(auto, unfolding(crate::specs::Arrive::through))]
fn push_run(tb: FluidFifo, from: f64, to: f64, len: usize) -> Through
    ensures { result ≡ through tb from to len }
{
    if len == 0 {
        return Through { tb, run: no_run() };
    }
    let bytes = ieee::as_float(len as u64);
    let p = tb.push(from, to, bytes);
    Through {
        tb: p.fifo,
        run: Run {
            t0: p.start,
            t1: p.end,
            bytes,
        },
    }
}

// The runs lie in the packet, whose payload begins at `payload_start`. No sum is made, since it could wrap. Two parameters, here and below: the
// runs come of the scanner, the place of the packet's header, and in a struct they would have to fit at each use.
#[tactic(auto, unfolding(crate::specs::Arrive::fits_in))]
fn fits(runs: Runs, payload_start: usize) -> bool
    ensures { result ≡ fits_in payload_start runs }
{
    payload_start <= 188
        && runs.head <= 188 - payload_start
        && runs.rest <= 188 - payload_start - runs.head
        && runs.body <= 188 - payload_start - runs.head - runs.rest
}

// The payload is content alone, or has no runs. `begin` is when it begins. Beside `headed`, whose answer it would have too: most packets are
// content alone, and their runs take two divisions less this way.
fn plain(
    header: FluidFifo,
    body: usize,
    payload_start: usize,
    begin: f64,
    time: PacketTime,
    decode: f64,
) -> Arrived
    requires body_bound { payload_start + body < 2 ^ 64 }
    requires begin_value { begin ≡ byte_time time.t0 time.span payload_start }
    ensures { result ≡ delivery header payload_start (only_body body) (byte_time time.t0 time.span) decode }
{
    let end = time.of_byte(payload_start + body);
    let x = push_run(header, begin, end, body);
    let delivered = Delivered {
        decode_time: decode,
        first_input_time: begin,
        body: x.run,
        ..nothing_delivered()
    };
    Arrived {
        tb: x.tb,
        delivered,
    }
}

// The payload has header bytes.
fn headed(
    header: FluidFifo,
    runs: Runs,
    payload_start: usize,
    begin: f64,
    time: PacketTime,
    decode: f64,
) -> Arrived
    requires body_bound { payload_start + runs.head + runs.rest + runs.body < 2 ^ 64 }
    requires begin_value { begin ≡ byte_time time.t0 time.span payload_start }
    ensures { result ≡ delivery header payload_start runs (byte_time time.t0 time.span) decode }
{
    let b = payload_start + runs.head;
    let c = b + runs.rest;
    let head_end = time.of_byte(b);
    let rest_end = time.of_byte(c);
    let body_end = time.of_byte(c + runs.body);
    let x = push_run(header, begin, head_end, runs.head);
    let y = push_run(x.tb, head_end, rest_end, runs.rest);
    let z = push_run(y.tb, rest_end, body_end, runs.body);
    Arrived {
        tb: z.tb,
        delivered: Delivered {
            decode_time: decode,
            first_input_time: begin,
            head: x.run,
            rest: y.run,
            body: z.run,
        },
    }
}

// A packet of the stream: its 188 bytes come from t0 to u, and its payload begins at `payload_start` and has these runs. The interval is
// that of its end. Runs that do not lie in the packet change and deliver nothing.
// Ruled out: an empty payload that goes in as less than 188 bytes; bytes of no run that leave toward the branch.
#[tactic(auto, using(crate::proofs::Ways::in_packet_lem, crate::proofs::Ways::outside_way, crate::proofs::Ways::inside_way, crate::proofs::Ways::empty_way, crate::proofs::Ways::headed_way, crate::proofs::Ways::plain_way))]
pub fn arrive(
    tb: FluidFifo,
    runs: Runs,
    payload_start: usize,
    t0: f64,
    u: f64,
    interval: RateInterval,
) -> Arrived
    ensures { result ≡ arrive_in tb payload_start runs t0 u (stamp_answer interval runs.decode_ts) }
{
    if !fits(runs, payload_start) {
        return Arrived {
            tb,
            delivered: nothing_delivered(),
        };
    }
    if payload_start == 188 {
        return Arrived {
            tb: tb.push(t0, u, 188.0).fifo,
            delivered: nothing_delivered(),
        };
    }
    let time = PacketTime { t0, span: u - t0 };
    let begin = time.of_byte(payload_start);
    let header = tb
        .push(t0, begin, ieee::as_float(payload_start as u64))
        .fifo;
    let decode = stamp_time(interval, runs.decode_ts);
    if runs.head + runs.rest == 0 {
        return plain(header, runs.body, payload_start, begin, time, decode);
    }
    headed(header, runs, payload_start, begin, time, decode)
}
