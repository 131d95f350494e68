// The two clocks of H.222.0 2.4.2: the step between two PCRs (27 MHz), and a 33-bit PTS or DTS (90 kHz) brought onto the 64-bit timeline.
#![tactic(auto)]

ghost use Rattle.std.specs.Prelude.{◌≡◌, [], ◌∷◌, ◌-◌, ◌^◌, ◌<◌, nat_abs};
ghost use Rattle.clock.specs.Timestamp.{timestamp_modulus, in_epoch, nearest, nearest_timestamp, extend_near};
ghost use Rattle.clock.specs.Pcr.{pcr_modulus, wrapped, delta_ticks};

use error::Refusal;

// One wrap of the 33-bit PTS or DTS.
pub const TIMESTAMP_MODULUS_90KHZ: u64 = 1 << 33;

// From here on the epoch above the reference's own would not fit 64 bits.
const REFERENCE_LIMIT: u64 = u64::MAX - TIMESTAMP_MODULUS_90KHZ + 1;

// One wrap of the composed PCR, base × 300 + extension.
pub const PCR_MODULUS_27MHZ: u64 = (1 << 33) * 300;

#[derive(Clone, Copy)]
pub struct Pcr {
    pub ticks_27mhz: u64,
}

// The higher one only where it lies closer: a tie takes the lower.
#[tactic(auto, unfolding(crate::specs::Timestamp::nearest, crate::specs::Timestamp::first, crate::specs::Timestamp::none_closer))]
fn nearer(lower: u64, higher: u64, reference: u64) -> u64
    ensures { result ≡ nearest reference (lower ∷ higher ∷ []) }
{
    if higher.abs_diff(reference) < lower.abs_diff(reference) {
        higher
    } else {
        lower
    }
}

fn in_epoch(raw_timestamp: u64, epoch: u64) -> u64
    requires { epoch < 2 ^ 31 }
    ensures { result ≡ in_epoch raw_timestamp epoch }
{
    epoch * TIMESTAMP_MODULUS_90KHZ + raw_timestamp % TIMESTAMP_MODULUS_90KHZ
}

// In the epochs below, of and above the reference, lowest first.
#[tactic(auto, using(crate::proofs::Search::begun, crate::proofs::Search::gone_on))]
fn nearest_timestamp(raw_timestamp: u64, reference: u64) -> u64
    requires { reference < 2 ^ 64 - timestamp_modulus }
    ensures { result ≡ nearest_timestamp raw_timestamp reference }
{
    let own = reference / TIMESTAMP_MODULUS_90KHZ;
    let lowest = own.saturating_sub(1);
    let end = own + 2;
    let mut best = in_epoch(raw_timestamp, lowest);
    for epoch in lowest + 1..end {
        best = nearer(best, in_epoch(raw_timestamp, epoch), reference);
    }
    best
}

// Number 1: the reference is at the limit or above.
// Ruled out: the reference's own epoch whatever the distance; the higher of two epochs equally near.
#[tactic(auto, unfolding(crate::specs::Timestamp::extend_near))]
pub fn extend_near(raw_timestamp: u64, reference: u64) -> Result<u64, Refusal>
    ensures { result ≡ extend_near raw_timestamp reference }
{
    if reference < REFERENCE_LIMIT {
        Ok(nearest_timestamp(raw_timestamp, reference))
    } else {
        Err(Refusal::OutsideLimits)
    }
}

// A difference of two PCRs brought within half a wrap.
#[tactic(auto, unfolding(crate::specs::Pcr::wrapped))]
fn wrap_step(raw: i64) -> i64
    requires { nat_abs raw < pcr_modulus }
    ensures { result ≡ wrapped raw }
{
    let modulus = PCR_MODULUS_27MHZ as i64;
    let half = (PCR_MODULUS_27MHZ / 2) as i64;
    if half < raw {
        return raw - modulus;
    }
    if raw < -half {
        return raw + modulus;
    }
    raw
}

impl Pcr {
    // `self` - `other`. Number 1: ticks of a whole wrap or more.
    // Ruled out, with m the modulus: -m / 2 for a difference of m / 2; a step for ticks of m.
    #[tactic(auto, using(crate::proofs::Step::machine_difference), unfolding(crate::specs::Pcr::delta_ticks))]
    pub fn delta_ticks(self, other: Pcr) -> Result<i64, Refusal>
        ensures { result ≡ delta_ticks self other }
    {
        if self.ticks_27mhz >= PCR_MODULUS_27MHZ || other.ticks_27mhz >= PCR_MODULUS_27MHZ {
            return Err(Refusal::OutsideLimits);
        }
        Ok(wrap_step(self.ticks_27mhz as i64 - other.ticks_27mhz as i64))
    }
}
