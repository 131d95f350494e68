// A transport buffer (H.222.0 2.4.2) as a fluid FIFO with a constant drain rate: the Rust's `FluidFifo`.
// -infinity stands for the Rust's `None` of `busy_since`, so that the record holds floats alone: an `Option` costs copies for each packet.
#![tactic(auto)]

ghost use Rattle.std.specs.Prelude.{◌≡◌};
ghost use Rattle.fifo.specs.FluidFifo.{new, pushed};

// The rate is in bytes/s, the peak in bytes, the rest in seconds.
#[derive(Clone, Copy)]
pub struct FluidFifo {
    pub rate: f64,
    pub virtual_done: f64,
    pub busy_since: f64,
    pub peak: f64,
    pub longest_busy: f64,
}

#[derive(Clone, Copy)]
pub struct Pushed {
    pub fifo: FluidFifo,
    pub start: f64,
    pub end: f64,
}

impl FluidFifo {
    // Ruled out: a rate left in bit/s; a FIFO that is busy from time 0.
    pub fn new(rate_bps: u64) -> FluidFifo
        ensures { result ≡ new rate_bps }
    {
        FluidFifo {
            rate: std::num::nearest_u64_to_f64(rate_bps) / 8.0,
            virtual_done: f64::NEG_INFINITY,
            busy_since: f64::NEG_INFINITY,
            peak: 0.0,
            longest_busy: 0.0,
        }
    }

    // `bytes` arrive linearly from t0 to t1 and leave from `start` to `end`.
    // Ruled out: a backlog taken at t0; an idle gap looked for before t1.
    pub fn push(self, t0: f64, t1: f64, bytes: f64) -> Pushed
        ensures { result ≡ pushed self t0 t1 bytes }
    {
        let start = ieee::max(self.virtual_done, t0);
        if bytes <= 0.0 {
            return Pushed {
                fifo: self,
                start,
                end: start,
            };
        }
        let mut since = self.busy_since;
        let mut longest = self.longest_busy;
        let idle = self.virtual_done < t0 - 1e-6;
        if since == f64::NEG_INFINITY {
            since = t0;
        } else if idle {
            longest = ieee::max(longest, self.virtual_done - since);
            since = t0;
        }
        let end = ieee::max(t1, start + bytes / self.rate);
        Pushed {
            fifo: FluidFifo {
                rate: self.rate,
                virtual_done: end,
                busy_since: since,
                peak: ieee::max(self.peak, (end - t1) * self.rate),
                longest_busy: ieee::max(longest, end - since),
            },
            start,
            end,
        }
    }
}
