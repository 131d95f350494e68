// Pass 2: every packet goes through its chain; behind the packets comes the end of each stream.
ghost use Rattle.std.specs.Prelude.{◌≡◌, ◌<◌, ◌≤◌};
ghost use Rattle.tstd.specs.Run.{queue_full, Ready, pass_of, EndsTo, RanTo};

use crate::chain::Chain;
use crate::front::SystemChain;
use crate::skip::{Packets, Position};
use crate::times::Times;
use crate::{chain, front, owners};
use arrival::Intervals;
use error::Refusal;
use events::Slots;
use packet::TsPacketLayout;
use profile::config::TStdConfig;
use profile::owner::Owner;

// The state of the chains, the times and the slots.
#[derive(Clone, Copy)]
pub struct Ran {
    pub chains: [Chain; 8],
    pub system: SystemChain,
    pub times: Times,
    pub slots: Slots,
}

// A push met a full queue of stream i. Packets count from 0; at the end of a stream it is their count.
fn queue_full(config: TStdConfig, packet: usize, i: usize) -> Refusal
    requires { i < 8 }
    ensures { result ≡ queue_full config packet i }
{
    Refusal::QueueFull {
        packet: packet as u64,
        pid: config.streams[i].pid,
    }
}

// The end of each stream.
fn ends(config: TStdConfig, count: usize, work: &mut [f64], ran: Ran) -> Result<Ran, Refusal>
    requires { config.stream_count ≤ 8 }
    ensures { EndsTo config count work.old ran result work.new }
{
    let mut chains = ran.chains;
    let mut slots = ran.slots;
    for i in 0..config.stream_count {
        if chains[i].end(work, &mut slots, 1 + 6 * i).is_err() {
            return Err(queue_full(config, count, i));
        }
    }
    Ok(Ran {
        chains,
        slots,
        ..ran
    })
}

// The loop is a while, since a skip moves k on. Times, place and count are a Position for a skip alone: each packet moves each of them.
#[tactic(auto, using(crate::proofs::Owning::pid_small))]
pub(crate) fn run(
    config: TStdConfig,
    bytes: &[u8],
    layout: TsPacketLayout,
    count: usize,
    work: &mut [f64],
    clock: Intervals,
) -> Result<Ran, Refusal>
    requires { (0 < clock.count) × Ready (pass_of config bytes.now layout count work.old clock) }
    ensures { RanTo (pass_of config bytes.now layout count work.old clock.entry) result work.new }
{
    let mut owners = [0; owners::PIDS];
    owners::owner_table(&mut owners, config.pids());
    let mut chains = chain::chains(config);
    let mut system = front::new_system();
    let mut slots = Slots::new();
    let mut times = Times::start(clock);
    let packets = Packets {
        bytes,
        size: layout.packet_size,
        count,
    };
    let mut at = layout.sync_offset;
    let mut k = 0;
    while k < count {
        let window = packet::window_at(bytes, at);
        let header = header::read(window);
        times = times.next(header, clock);
        match (owners::owner_of(&owners, header), header) {
            (Owner::Stream(i), Some(header)) => {
                if chains[i]
                    .packet(work, window, header, times.arrival, &mut slots, 1 + 6 * i)
                    .is_err()
                {
                    return Err(queue_full(config, k, i));
                }
            }
            (Owner::System, _) => system = front::push_system(system, times.arrival, &mut slots),
            _ => {
                let here = Position { times, at, k };
                let last = packets.skip(here, &owners);
                times = last.times;
                at = last.at;
                k = last.k;
            }
        }
        at += layout.packet_size;
        k += 1;
    }
    let ran = Ran {
        chains,
        system,
        times,
        slots,
    };
    ends(config, count, work, ran)
}
