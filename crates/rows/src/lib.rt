// The state of eight chains in rows of numbers that a caller lends, for a replay that is taken up again: of each chain 32 floats, 16
// counts and 16 bytes. No crate uses it yet. `places` names the place of every field. There is no chain behind the eighth: nothing is
// stored for one, and what is read of one is new. The functions take the rows that they read or write, and Rows holds all three. The
// lengths of the rings are cast, since Rust has no `From` between usize and u64.
#![tactic(auto)]

pub mod main_row;
mod places;
pub mod scanner_row;
pub mod tb_row;
mod units_row;
pub mod video_row;

pub const FLOATS: usize = 256;

pub const COUNTS: usize = 128;

pub const BYTES: usize = 128;

const CHAINS: usize = 8;

// Chain i has the floats from 32 i on, and the counts and the bytes from 16 i on.
#[derive(Clone, Copy)]
pub struct Rows {
    pub floats: [f64; FLOATS],
    pub counts: [u64; COUNTS],
    pub bytes: [u8; BYTES],
}
