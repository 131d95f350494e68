// The scanner of a chain.
ghost use Rattle.std.specs.Prelude.{◌≡◌, cond, ◌+◌, ◌*◌, ◌/◌, ◌%◌};
ghost use Rattle.rows.specs.Rows.{rows_of, read_scanner, stored_scanner};

use crate::{BYTES, CHAINS, Rows, places};
use scanner::{PesHeader, PesScanner, StampBytes};

// Ruled out: the scanner of another chain; PTS and DTS exchanged.
#[tactic(auto, unfolding(crate::specs::Rows::read_scanner, crate::specs::Rows::scanner_in))]
pub fn scanner_of(bytes: &[u8; BYTES], i: usize) -> PesScanner
    ensures { result ≡ read_scanner bytes.now i }
{
    if i >= CHAINS {
        return PesScanner::new();
    }
    let b = 16 * i;
    PesScanner {
        count: u16::from_le_bytes([bytes[b + places::COUNT_LOW], bytes[b + places::COUNT_HIGH]]),
        started: bytes[b + places::STARTED] == 1,
        header: PesHeader {
            stream_id: bytes[b + places::STREAM_ID],
            flags: bytes[b + places::FLAGS],
            header_data_length: bytes[b + places::HEADER_DATA_LENGTH],
            pts: StampBytes {
                b0: bytes[b + places::PTS_B0],
                b1: bytes[b + places::PTS_B1],
                b2: bytes[b + places::PTS_B2],
                b3: bytes[b + places::PTS_B3],
                b4: bytes[b + places::PTS_B4],
            },
            dts: StampBytes {
                b0: bytes[b + places::DTS_B0],
                b1: bytes[b + places::DTS_B1],
                b2: bytes[b + places::DTS_B2],
                b3: bytes[b + places::DTS_B3],
                b4: bytes[b + places::DTS_B4],
            },
        },
    }
}

// Ruled out: the high byte of the count lost; another chain's bytes written.
#[tactic(auto, unfolding(crate::specs::Rows::stored_scanner, branch::specs::Stores::store_from))]
pub fn set_scanner(bytes: &mut [u8; BYTES], i: usize, s: PesScanner)
    ensures { bytes.new ≡ stored_scanner bytes.old i s }
{
    if i >= CHAINS {
        return;
    }
    let b = 16 * i;
    let PesHeader {
        stream_id,
        flags,
        header_data_length,
        pts,
        dts,
    } = s.header;
    let [low, high] = s.count.to_le_bytes();
    bytes[b + places::COUNT_LOW] = low;
    bytes[b + places::COUNT_HIGH] = high;
    bytes[b + places::STARTED] = u8::from(s.started);
    bytes[b + places::STREAM_ID] = stream_id;
    bytes[b + places::FLAGS] = flags;
    bytes[b + places::HEADER_DATA_LENGTH] = header_data_length;
    bytes[b + places::PTS_B0] = pts.b0;
    bytes[b + places::PTS_B1] = pts.b1;
    bytes[b + places::PTS_B2] = pts.b2;
    bytes[b + places::PTS_B3] = pts.b3;
    bytes[b + places::PTS_B4] = pts.b4;
    bytes[b + places::DTS_B0] = dts.b0;
    bytes[b + places::DTS_B1] = dts.b1;
    bytes[b + places::DTS_B2] = dts.b2;
    bytes[b + places::DTS_B3] = dts.b3;
    bytes[b + places::DTS_B4] = dts.b4;
}

impl Rows {
    // Ruled out: the scanner of another chain; PTS and DTS exchanged.
    pub fn scanner(&self, i: usize) -> PesScanner
        ensures { result ≡ read_scanner self.now.bytes i }
    {
        scanner_of(&self.bytes, i)
    }

    // Ruled out: the high byte of the count lost; another chain's bytes written.
    pub fn set_scanner(&mut self, i: usize, s: PesScanner)
        ensures { self.new ≡ rows_of self.old.floats self.old.counts (stored_scanner self.old.bytes i s) }
    {
        set_scanner(&mut self.bytes, i, s);
    }
}
