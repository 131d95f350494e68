// The branches behind the transport buffer (H.222.0, 2.4.2.3), with their queues in lent work.
// MainBranch and VideoBranch have functions of the same names, ready, close, step, finish, deliver and remove, and no trait: what both do stands in
// `Units`, but for three tests of `ready` on the units and the slots, a line each, and the rest differs, since Bn is emptied a unit at a time and MBn leaks into EBn. A trait would have two impls and a caller that
// matches on the kind of a stream all the same. A push into Bsys and one into a ring share the name alone.
#![tactic(auto)]

mod entries;
pub mod inflow;
pub mod leak;
pub mod main_branch;
pub mod queue;
pub mod sys_branch;
pub mod units;
pub mod video_branch;

// A run of bytes delivered over t0 to t1.
#[derive(Clone, Copy, Default)]
pub struct Run {
    pub t0: f64,
    pub t1: f64,
    pub bytes: f64,
}

// A pending removal, or the unit whose bytes are arriving.
#[derive(Clone, Copy)]
pub struct AccessUnit {
    pub decode_time: f64,
    pub bytes: f64,
    pub first_input_time: f64,
}

// What a packet delivers from the transport buffer: the header bytes up to the end of a stamp, those behind, and the content.
// 0.0 bytes are no run. The stamp's decode time is -infinity where there is none, as transport's definition of a stamp's time has it; of
// it `stamped` makes an Option. first_input_time is when its unit's first byte came.
#[derive(Clone, Copy)]
pub struct Delivered {
    pub decode_time: f64,
    pub first_input_time: f64,
    pub head: Run,
    pub rest: Run,
    pub body: Run,
}

// Header bytes of MBn, which end at a cumulative count.
#[derive(Clone, Copy)]
pub struct HeaderMark {
    pub threshold: f64,
    pub bytes: f64,
}

// A queue had no place left.
#[derive(Clone, Copy, Debug, PartialEq, Eq)]
pub struct QueueFull;
