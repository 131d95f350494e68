// The rings and the open unit of a branch.
ghost use Rattle.std.specs.Prelude.{◌≡◌, ◌<◌, set};
ghost use Rattle.branch.specs.Units.{open_of};
ghost use Rattle.rows.specs.Rows.{ring_at, held};

use crate::COUNTS;
use branch::AccessUnit;
use branch::queue::Ring;

// The ring whose head and count stand at these two places of the counts.
pub(crate) fn ring_at(counts: &[u64; COUNTS], head: usize, count: usize) -> Ring
    requires { (head < 128) × (count < 128) }
    ensures { result ≡ ring_at counts.now head count }
{
    Ring {
        head: counts[head] as usize,
        count: counts[count] as usize,
    }
}

pub(crate) fn set_ring(counts: &mut [u64; COUNTS], head: usize, count: usize, q: Ring)
    requires { (head < 128) × (count < 128) }
    ensures { counts.new ≡ set (set counts.old head q.head) count q.count }
{
    counts[head] = q.head as u64;
    counts[count] = q.count as u64;
}

// What is stored of an open unit: -infinity, 0 and 0 where none is open.
#[tactic(auto, unfolding(crate::specs::Rows::held))]
pub(crate) fn held(open_au: Option<AccessUnit>) -> AccessUnit
    ensures { result ≡ held open_au }
{
    match open_au {
        Some(u) => u,
        None => AccessUnit {
            decode_time: f64::NEG_INFINITY,
            bytes: 0.0,
            first_input_time: 0.0,
        },
    }
}

// The open unit that was stored so: a decode time of -infinity is none.
pub(crate) fn open_of(u: AccessUnit) -> Option<AccessUnit>
    ensures { result ≡ open_of u }
{
    if u.decode_time == f64::NEG_INFINITY {
        return None;
    }
    Some(u)
}
