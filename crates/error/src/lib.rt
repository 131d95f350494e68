// The refusals of the replay and of the functions under it, and the numbers by which they are told.
#![tactic(auto)]

ghost use Rattle.std.specs.Prelude.{◌≡◌};
ghost use Rattle.error.specs.Code.{code_of, code_told, code_numbered, code_placed};

#[derive(Clone, Copy, Debug, PartialEq, Eq)]
pub enum Refusal {
    // A profile field, or an argument, is outside its limit.
    OutsideLimits,
    // The work or the chain row is too short.
    WorkTooShort,
    RecordingTooLong,
    NoPacketLayout,
    // Fewer than two PCR samples on the PCR PID.
    TooFewPcrs,
    // The second sample has the discontinuity mark: no rate is established yet.
    DiscontinuityBeforeRate { sample: u64 },
    RepeatedPcr { sample: u64 },
    // More PCR samples than the clock depth.
    ClockFull { depth: u64 },
    RateOutsideLimits { sample: u64 },
    // A push met a full queue of the chain of that PID.
    QueueFull { packet: u64, pid: u16 },
}

// What the C boundary and the text tell of a refusal. The number is theirs; inside the code a refusal is the enum.
#[derive(Clone, Copy, Debug, PartialEq, Eq)]
pub struct Code {
    pub number: u8,
    pub place: u64,
    pub pid: u16,
}

fn numbered(number: u8) -> Code
    ensures { result ≡ code_numbered number }
{
    Code {
        number,
        place: 0,
        pid: 0,
    }
}

fn placed(number: u8, place: u64) -> Code
    ensures { result ≡ code_placed number place }
{
    Code {
        number,
        place,
        pid: 0,
    }
}

impl Refusal {
    // Ruled out: two refusals under one number; a sample's place left 0 (must-fail/).
    pub fn code(self) -> Code
        ensures { result ≡ code_of self }
    {
        match self {
            Refusal::OutsideLimits => numbered(1),
            Refusal::WorkTooShort => numbered(2),
            Refusal::RecordingTooLong => numbered(3),
            Refusal::NoPacketLayout => numbered(4),
            Refusal::TooFewPcrs => numbered(5),
            Refusal::DiscontinuityBeforeRate { sample } => placed(6, sample),
            Refusal::RepeatedPcr { sample } => placed(7, sample),
            Refusal::ClockFull { depth } => placed(8, depth),
            Refusal::RateOutsideLimits { sample } => placed(9, sample),
            Refusal::QueueFull { packet, pid } => Code {
                number: 10,
                place: packet,
                pid,
            },
        }
    }
}

impl Code {
    // What is told of an outcome. Ruled out: number 0 for a refusal; a number other than 0 where nothing was refused.
    pub fn told<T: Copy>(outcome: Result<T, Refusal>) -> Code
        ensures { result ≡ code_told outcome }
    {
        match outcome {
            Ok(_) => numbered(0),
            Err(refusal) => refusal.code(),
        }
    }
}
