// A stream's chain: its transport buffer, its scanner and its branch. Work and slots are handed on beside it, the slots beside k, where those of the
// chain begin, as `branch` says at MainModel.
ghost use Rattle.std.specs.Prelude.{◌≡◌, ◌≤◌};
ghost use Rattle.tstd.specs.Chain.{new_branch, new_chain, ChainsOf, scanned, StepOf, FinishOf, PacketOf, EndOf};

use crate::front;
use arrival::PacketArrival;
use branch::main_branch::{MainBranch, MainModel};
use branch::video_branch::{VideoBranch, VideoModel};
use branch::{Delivered, QueueFull};
use events::Slots;
use fifo::FluidFifo;
use header::PacketHeader;
use profile::config::{TStdConfig, TStdStream};
use profile::model::TStdBranch;
use scanner::{PesScanner, Runs};

// The branch by its kind, with what does not change of it.
#[derive(Clone, Copy)]
pub enum Branch {
    Main(MainModel, MainBranch),
    Video(VideoModel, VideoBranch),
}

impl Branch {
    // Before any packet; its part of the work begins at base.
    #[tactic(auto, unfolding(crate::specs::Chain::new_branch))]
    fn new(branch: TStdBranch, base: usize, depth: usize) -> Branch
        ensures { result ≡ new_branch branch base depth }
    {
        match branch {
            TStdBranch::Main { buffer_size } => Branch::Main(
                MainModel {
                    buffer_size: std::num::nearest_u64_to_f64(buffer_size as u64),
                    base,
                    depth,
                },
                MainBranch::new(),
            ),
            TStdBranch::Video {
                rbx_bps,
                mb_size,
                eb_size,
            } => Branch::Video(
                VideoModel {
                    rbx: std::num::nearest_u64_to_f64(rbx_bps) / 8.0,
                    mb_size: std::num::nearest_u64_to_f64(mb_size as u64),
                    eb_size: std::num::nearest_u64_to_f64(eb_size as u64),
                    base,
                    depth,
                },
                VideoBranch::new(),
            ),
        }
    }

    fn step(
        &mut self,
        work: &mut [f64],
        d: Delivered,
        t: f64,
        slots: &mut Slots,
        k: usize,
    ) -> Result<(), QueueFull>
        ensures { StepOf work.old self.old d t k slots.old result self.new work.new slots.new }
    {
        match self {
            Branch::Main(model, b) => b.step(*model, work, d, t, slots, k),
            Branch::Video(model, b) => b.step(*model, work, d, t, slots, k),
        }
    }

    fn finish(&mut self, work: &mut [f64], slots: &mut Slots, k: usize) -> Result<(), QueueFull>
        ensures { FinishOf work.old self.old k slots.old result self.new work.new slots.new }
    {
        match self {
            Branch::Main(model, b) => b.finish(*model, work, slots, k),
            Branch::Video(model, b) => b.finish(*model, work, slots, k),
        }
    }
}

// The runs of a packet's payload. The scanner is fed where the payload has bytes and a header of a unit is in it or may be.
// It is read whole and written only then: its header is 13 single bytes.
#[tactic(auto, unfolding(crate::specs::Chain::scanned, crate::specs::Chain::scans_in))]
fn scan(s: &mut PesScanner, window: &[u8], header: PacketHeader) -> Runs
    ensures runs { result ≡ (scanned s.old window.now header).runs }
    ensures scanner { s.new ≡ (scanned s.old window.now header).scanner }
{
    if header.payload_start < 188 && (header.payload_unit_start || s.in_header()) {
        let fed = s.feed(
            packet::payload(window, header.payload_start),
            header.payload_unit_start,
        );
        *s = fed.scanner;
        return fed.runs;
    }
    s.unfed(window.len().saturating_sub(header.payload_start))
}

#[derive(Clone, Copy)]
pub struct Chain {
    pub tb: FluidFifo,
    pub scanner: PesScanner,
    pub branch: Branch,
}

impl Chain {
    // Before any packet; its part of the work begins at base.
    pub(crate) fn new(stream: TStdStream, base: usize, depth: usize) -> Chain
        ensures { result ≡ new_chain stream base depth }
    {
        Chain {
            tb: FluidFifo::new(stream.model.rx_bps),
            scanner: PesScanner::new(),
            branch: Branch::new(stream.model.branch, base, depth),
        }
    }

    // A packet of the stream, with the arrival a. Its events go to the slots from k on.
    #[tactic(auto, unfolding(crate::specs::Chain::arrived))]
    pub(crate) fn packet(
        &mut self,
        work: &mut [f64],
        window: &[u8],
        header: PacketHeader,
        a: PacketArrival,
        slots: &mut Slots,
        k: usize,
    ) -> Result<(), QueueFull>
        ensures { PacketOf work.old self.old window.now header a k slots.old result self.new work.new slots.new }
    {
        let runs = scan(&mut self.scanner, window, header);
        let arrived = transport::arrive(
            self.tb,
            runs,
            header.payload_start,
            a.t0,
            a.t1,
            a.cursor.interval,
        );
        self.tb = arrived.tb;
        self.branch.step(work, arrived.delivered, a.t0, slots, k)
    }

    // The end of the stream: its transport buffer is looked at, and its branch finished.
    pub(crate) fn end(
        &mut self,
        work: &mut [f64],
        slots: &mut Slots,
        k: usize,
    ) -> Result<(), QueueFull>
        ensures { EndOf work.old self.old k slots.old result self.new work.new slots.new }
    {
        front::note_tb(self.tb, slots, k);
        self.branch.finish(work, slots, k)
    }
}

// The chains of the streams. The part of the work of stream i begins at 8 * queue_depth * i.
pub(crate) fn chains(config: TStdConfig) -> [Chain; 8]
    requires { config.queue_depth ≤ 8192 }
    ensures { ChainsOf config.streams config.queue_depth 8 result }
{
    let depth = config.queue_depth;
    std::array::from_fn(|i| Chain::new(config.streams[i], 8 * depth * i, depth))
}
