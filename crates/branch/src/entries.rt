// The entries of the rings as arrays of floats: the fields in their order.
ghost use Rattle.std.specs.Prelude.{◌≡◌};
ghost use Rattle.branch.specs.InflowInWork.{run_of, floats_of_run};
ghost use Rattle.branch.specs.UnitsInWork.{unit_of, floats_of_unit};
ghost use Rattle.branch.specs.VideoInWork.{mark_of, floats_of_mark};

use crate::{AccessUnit, HeaderMark, Run};

impl From<[f64; 3]> for Run {
    ghost from_gives = { λ e r. r ≡ run_of e };

    // Ruled out: t0 and t1 exchanged; the bytes first.
    fn from([t0, t1, bytes]: [f64; 3]) -> Run {
        Run { t0, t1, bytes }
    }
}

impl From<Run> for [f64; 3] {
    ghost from_gives = { λ r e. e ≡ floats_of_run r };

    // Ruled out: t0 and t1 exchanged; the bytes first.
    fn from(r: Run) -> [f64; 3] {
        [r.t0, r.t1, r.bytes]
    }
}

impl From<[f64; 3]> for AccessUnit {
    ghost from_gives = { λ e u. u ≡ unit_of e };

    // Ruled out: decode time and first input time exchanged; the bytes first.
    fn from([decode_time, bytes, first_input_time]: [f64; 3]) -> AccessUnit {
        AccessUnit {
            decode_time,
            bytes,
            first_input_time,
        }
    }
}

impl From<AccessUnit> for [f64; 3] {
    ghost from_gives = { λ u e. e ≡ floats_of_unit u };

    // Ruled out: decode time and first input time exchanged; the bytes first.
    fn from(u: AccessUnit) -> [f64; 3] {
        [u.decode_time, u.bytes, u.first_input_time]
    }
}

impl From<[f64; 2]> for HeaderMark {
    ghost from_gives = { λ e m. m ≡ mark_of e };

    // Ruled out: threshold and bytes exchanged; a threshold without the bytes.
    fn from([threshold, bytes]: [f64; 2]) -> HeaderMark {
        HeaderMark { threshold, bytes }
    }
}

impl From<HeaderMark> for [f64; 2] {
    ghost from_gives = { λ m e. e ≡ floats_of_mark m };

    // Ruled out: threshold and bytes exchanged; a threshold without the bytes.
    fn from(m: HeaderMark) -> [f64; 2] {
        [m.threshold, m.bytes]
    }
}
