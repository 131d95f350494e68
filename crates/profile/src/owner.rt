// Whose packets a PID carries: the first stream of that PID, else the system branch, else nobody's.
ghost use Rattle.std.specs.Prelude.{◌≡◌, take, eqb};
ghost use Rattle.std.specs.List.{list_any, position};
ghost use Rattle.profile.specs.Owner.{owner_of, owner_by, pids_of};

use crate::config::TStdConfig;
use crate::limits::{MAX_STREAMS, MAX_SYSTEM_PIDS};

#[derive(Clone, Copy)]
pub enum Owner {
    // The slot's index among the streams.
    Stream(usize),
    System,
    Nobody,
}

// The PIDs of a configuration alone, in its slots with their counts, as the configuration has them.
#[derive(Clone, Copy)]
pub struct Pids {
    pub streams: [u16; MAX_STREAMS],
    pub stream_count: usize,
    pub system: [u16; MAX_SYSTEM_PIDS],
    pub system_count: usize,
}

impl Pids {
    // The first stream of the PID.
    fn stream_of(self, pid: u16) -> Option<usize>
        ensures { result ≡ position (λ p. eqb p pid) (take self.stream_count self.streams) }
    {
        self.streams
            .iter()
            .take(self.stream_count)
            .position(|p| *p == pid)
    }

    fn is_system(self, pid: u16) -> bool
        ensures { result ≡ list_any (λ p. eqb p pid) (take self.system_count self.system) }
    {
        self.system
            .iter()
            .take(self.system_count)
            .any(|p| *p == pid)
    }

    // Ruled out: the last of two streams of the PID; the system branch for a PID that is in both lists.
    #[tactic(auto, using(crate::proofs::Ownership::owner_stream, crate::proofs::Ownership::owner_system, crate::proofs::Ownership::owner_nobody, crate::proofs::Search::index_some, crate::proofs::Search::index_none, crate::proofs::Search::any_is))]
    pub fn owner(self, pid: u16) -> Owner
        ensures { result ≡ owner_by self pid }
    {
        match self.stream_of(pid) {
            Some(i) => Owner::Stream(i),
            None if self.is_system(pid) => Owner::System,
            None => Owner::Nobody,
        }
    }
}

impl TStdConfig {
    // For a caller that asks of every packet. Ruled out: the streams' PIDs in another order; the counts cut to the slots.
    pub fn pids(self) -> Pids
        ensures { result ≡ pids_of self }
    {
        let streams = self.streams;
        let system = self.system_pids;
        Pids {
            streams: streams.map(|stream| stream.pid),
            stream_count: self.stream_count,
            system,
            system_count: self.system_count,
        }
    }

    // Ruled out: a stream for the PID that a slot past the count holds; the system branch for the PCR PID alone.
    #[tactic(auto, using(crate::proofs::Ownership::pids_owner))]
    pub fn owner(self, pid: u16) -> Owner
        ensures { result ≡ owner_of self pid }
    {
        self.pids().owner(pid)
    }
}
