// The T-STD parameters of one elementary stream (H.222.0 2.4.2.3) and the Rust's constructors of them. A rate or size
// argument outside its limit is refused with number 1; a result outside the limits is left to the replay.
ghost use Rattle.std.specs.Prelude.{◌≡◌, ◌≤◌};
ghost use Rattle.profile.specs.Model.{branch_ok, new_model, with_rx_bps, with_branch, audio_model, mux_and_overhead, video_model, video_low_main_level, video_high_level};

use crate::range::{rate_ok, size_ok};
use error::Refusal;

// Rxn of audio other than ADTS, in bit/s, and its BSn in bytes.
pub const AUDIO_RX_BPS: u64 = 2000000;

pub const AUDIO_MAIN_BUFFER_SIZE: usize = 3584;

#[derive(Clone, Copy)]
pub enum TStdBranch {
    // TBn to Bn; the size is BSn in bytes.
    Main {
        buffer_size: usize,
    },
    // TBn to MBn to EBn by the leak method: Rbxn in bit/s, MBSn and EBSn in bytes.
    Video {
        rbx_bps: u64,
        mb_size: usize,
        eb_size: usize,
    },
}

#[derive(Clone, Copy)]
pub struct TStdStreamModel {
    // Rxn, the rate at which the transport buffer drains, in bit/s.
    pub rx_bps: u64,
    pub branch: TStdBranch,
}

#[tactic(auto, unfolding(crate::specs::Model::branch_ok))]
pub(crate) fn branch_ok(branch: TStdBranch) -> bool
    ensures { result ≡ branch_ok branch }
{
    match branch {
        TStdBranch::Main { buffer_size } => size_ok(buffer_size),
        TStdBranch::Video {
            rbx_bps,
            mb_size,
            eb_size,
        } => rate_ok(rbx_bps) && size_ok(mb_size) && size_ok(eb_size),
    }
}

// BSmux + BSoh: Rmax for 0.004 s and for 1/750 s, in bytes.
fn mux_and_overhead(rmax_bps: u64) -> usize
    ensures { result ≡ mux_and_overhead rmax_bps }
{
    let bsoh = (rmax_bps / 750 / 8) as usize;
    let bsmux = (rmax_bps / 250 / 8) as usize;
    bsmux + bsoh
}

// Rxn is 1.2 Rmax.
fn video_model(rmax_bps: u64, rbx_bps: u64, mb_size: usize, eb_size: usize) -> TStdStreamModel
    requires { rmax_bps ≤ 1000000000 }
    ensures { result ≡ video_model rmax_bps rbx_bps mb_size eb_size }
{
    TStdStreamModel {
        rx_bps: rmax_bps + rmax_bps / 5,
        branch: TStdBranch::Video {
            rbx_bps,
            mb_size,
            eb_size,
        },
    }
}

impl TStdStreamModel {
    // Ruled out: a branch outside the limits taken because the rate is inside; a rate cut to the limit.
    #[tactic(auto, unfolding(crate::specs::Model::new_model))]
    pub fn new(rx_bps: u64, branch: TStdBranch) -> Result<TStdStreamModel, Refusal>
        ensures { result ≡ new_model rx_bps branch }
    {
        if !(rate_ok(rx_bps) && branch_ok(branch)) {
            return Err(Refusal::OutsideLimits);
        }
        Ok(TStdStreamModel { rx_bps, branch })
    }

    // Ruled out: the old rate kept; a refusal because of the branch, which is no argument.
    #[tactic(auto, unfolding(crate::specs::Model::with_rx_bps))]
    pub fn with_rx_bps(self, v: u64) -> Result<TStdStreamModel, Refusal>
        ensures { result ≡ with_rx_bps self v }
    {
        if !rate_ok(v) {
            return Err(Refusal::OutsideLimits);
        }
        Ok(TStdStreamModel { rx_bps: v, ..self })
    }

    // Ruled out: a Video branch taken whose Rbxn is outside; the rate changed.
    #[tactic(auto, unfolding(crate::specs::Model::with_branch))]
    pub fn with_branch(self, v: TStdBranch) -> Result<TStdStreamModel, Refusal>
        ensures { result ≡ with_branch self v }
    {
        if !branch_ok(v) {
            return Err(Refusal::OutsideLimits);
        }
        Ok(TStdStreamModel { branch: v, ..self })
    }

    // Ruled out: Bsys's 1,536 bytes as BSn; Rxsys's 1,000,000 bit/s as Rxn.
    pub fn audio() -> Self
        ensures { result ≡ audio_model }
    {
        TStdStreamModel {
            rx_bps: AUDIO_RX_BPS,
            branch: TStdBranch::Main {
                buffer_size: AUDIO_MAIN_BUFFER_SIZE,
            },
        }
    }

    // Low or Main level; Rmax and VBVmax are those of the profile and level (ISO/IEC 13818-2).
    // Ruled out: vbv_buffer_size - VBVmax as the headroom; a refusal where VBVmax is the smaller.
    #[tactic(auto, unfolding(crate::specs::Model::video_low_main_level))]
    pub fn video_low_main_level(
        rmax_bps: u64,
        vbv_buffer_size_bytes: usize,
        vbv_max_bytes: usize,
    ) -> Result<TStdStreamModel, Refusal>
        ensures { result ≡ video_low_main_level rmax_bps vbv_buffer_size_bytes vbv_max_bytes }
    {
        if !(rate_ok(rmax_bps) && size_ok(vbv_buffer_size_bytes) && size_ok(vbv_max_bytes)) {
            return Err(Refusal::OutsideLimits);
        }
        let headroom = vbv_max_bytes.saturating_sub(vbv_buffer_size_bytes);
        let mb_size = mux_and_overhead(rmax_bps) + headroom;
        Ok(video_model(rmax_bps, rmax_bps, mb_size, vbv_buffer_size_bytes))
    }

    // High-1440 or High level; res_bps is the rate of the elementary stream.
    // Ruled out: Rbxn above Rmax; the headroom of the lower levels in MBSn.
    #[tactic(auto, unfolding(crate::specs::Model::video_high_level))]
    pub fn video_high_level(
        rmax_bps: u64,
        res_bps: u64,
        vbv_buffer_size_bytes: usize,
    ) -> Result<TStdStreamModel, Refusal>
        ensures { result ≡ video_high_level rmax_bps res_bps vbv_buffer_size_bytes }
    {
        if !(rate_ok(rmax_bps) && rate_ok(res_bps) && size_ok(vbv_buffer_size_bytes)) {
            return Err(Refusal::OutsideLimits);
        }
        let rbx_bps = (res_bps + res_bps / 20).min(rmax_bps);
        let mb_size = mux_and_overhead(rmax_bps);
        Ok(video_model(rmax_bps, rbx_bps, mb_size, vbv_buffer_size_bytes))
    }
}
