// The PES scanner: which bytes of a stream's payloads are PES header and which are content, and the time stamp of each unit.
// The Rust's `PesScanner` by value; a payload gives at most three runs, and no loop goes over its bytes.
#![tactic(auto)]

ghost use Rattle.std.specs.Prelude.{◌≡◌, true, false, [], ◌++◌, ◌+◌, ◌/◌, ◌<◌, ◌≤◌};
ghost use Rattle.scanner.specs.Unit.{stamp_bytes, stamp_end_by, content_begin_by, cut, unit};
ghost use Rattle.syntax.specs.TimeStamp.{timestamp};
ghost use Rattle.scanner.specs.Joined.{byte_at, stamp_at, listed, decode_ts_in, stamp_here, cuts_by, kept_from, begun_at};
ghost use Rattle.scanner.specs.State.{header_limit, header_of, idle, in_content, in_header, only_body, unfed_runs, unit_with, open_of, fed_of};

// The runs of a payload by their lengths, in its order: the header up to its stamp's end, with the stamp; the rest of the header;
// content. A run of no bytes is none. The stamp is the decode time that the header announces: 33 bits at 90 kHz, the DTS where it is
// coded, else the PTS.
#[derive(Clone, Copy, Default)]
pub struct Runs {
    pub head: usize,
    pub decode_ts: Option<u64>,
    pub rest: usize,
    pub body: usize,
}

// A struct and not an array: its length would be a fact that no definition needs, but that laws over a header would have to ask.
#[derive(Clone, Copy, Default)]
pub struct StampBytes {
    pub b0: u8,
    pub b1: u8,
    pub b2: u8,
    pub b3: u8,
    pub b4: u8,
}

// Bytes 3, 7, 8, 9 to 13 and 14 to 18 of a unit; 0 where one has not come.
#[derive(Clone, Copy, Default)]
pub struct PesHeader {
    pub stream_id: u8,
    pub flags: u8,
    pub header_data_length: u8,
    pub pts: StampBytes,
    pub dts: StampBytes,
}

// The open unit: its count of bytes, HEADER_LIMIT once its content has begun, and its header. 16 bytes without padding.
// Fields and not an enum of the three states: crate `rows` keeps each field at its own bytes and C (crate `leaves`) in its own word, so
// that a state is stored and read without a case; with an enum both would have to tell its case and read it back.
#[derive(Clone, Copy)]
pub struct PesScanner {
    pub count: u16,
    pub started: bool,
    pub header: PesHeader,
}

// Where the run of a unit's stamp ends, where its content begins, and its stamp.
#[derive(Clone, Copy)]
struct UnitCuts {
    stamp_end: usize,
    content_begin: usize,
    stamp: Option<u64>,
}

#[derive(Clone, Copy)]
pub struct Fed {
    pub runs: Runs,
    pub scanner: PesScanner,
}

// No content begins behind byte 9 + 255.
const HEADER_LIMIT: u16 = 264;

// Byte i of the unit whose first n bytes came before, and whose next are the payload; 0 where it has not come.
#[tactic(auto, unfolding(crate::specs::Joined::byte_at))]
fn byte_at(kept: u8, n: usize, i: usize, payload: &[u8]) -> u8
    ensures { result ≡ byte_at kept n i payload.now }
{
    if i < n {
        return kept;
    }
    let j = i - n;
    if j < payload.len() { payload[j] } else { 0 }
}

#[tactic(auto, unfolding(crate::specs::Joined::stamp_at))]
fn stamp_at(kept: StampBytes, n: usize, i: usize, payload: &[u8]) -> StampBytes
    requires { i < 100 }
    ensures { result ≡ stamp_at kept n i payload.now }
{
    StampBytes {
        b0: byte_at(kept.b0, n, i, payload),
        b1: byte_at(kept.b1, n, i + 1, payload),
        b2: byte_at(kept.b2, n, i + 2, payload),
        b3: byte_at(kept.b3, n, i + 3, payload),
        b4: byte_at(kept.b4, n, i + 4, payload),
    }
}

#[tactic(auto, unfolding(crate::specs::Unit::stamp_bytes))]
fn stamp_bytes(flags: u8) -> usize
    ensures { result ≡ stamp_bytes flags }
{
    match flags {
        2 => 5,
        3 => 10,
        _ => 0,
    }
}

// This and `content_begin` speak of a unit that has the optional header.
#[tactic(auto, unfolding(crate::specs::Unit::stamp_end_by))]
fn stamp_end(flags: u8, length: u8) -> usize
    ensures { result ≡ stamp_end_by true flags length }
{
    9 + usize::from(length).min(stamp_bytes(flags))
}

#[tactic(auto, unfolding(crate::specs::Unit::content_begin_by))]
fn content_begin(length: u8) -> usize
    ensures { result ≡ content_begin_by true length }
{
    9 + usize::from(length)
}

fn stamp(b: StampBytes) -> u64
    ensures { result ≡ timestamp (listed b) }
{
    pes::read_ts33([b.b0, b.b1, b.b2, b.b3, b.b4])
}

// The stamp, if the run of so many bytes behind the first n reaches s. Two parameters, here and below: n bytes of the unit came
// before, which its scanner knows, and size come now, which the packet knows.
#[tactic(auto, unfolding(crate::specs::Joined::stamp_here))]
fn stamp_here(n: usize, size: usize, s: usize, stamp: Option<u64>) -> Option<u64>
    ensures { result ≡ stamp_here n size s stamp }
{
    if n < s && s - n <= size { stamp } else { None }
}

impl UnitCuts {
    // The runs of a payload of so many bytes behind the unit's first n.
    #[tactic(auto, unfolding(crate::specs::Unit::cut, crate::specs::Joined::stamp_here))]
    fn runs(self, n: usize, size: usize) -> Runs
        ensures { result ≡ cut n size self.stamp_end self.content_begin self.stamp }
    {
        let head = size.min(self.stamp_end.saturating_sub(n));
        let header = size.min(self.content_begin.saturating_sub(n));
        Runs {
            head,
            decode_ts: stamp_here(n, size, self.stamp_end, self.stamp),
            rest: header.saturating_sub(head),
            body: size - header,
        }
    }
}

impl PesHeader {
    // The header of a unit of n bytes with the payload behind them.
    #[tactic(auto, using(crate::proofs::Kept::joined_is))]
    fn joined(self, n: usize, payload: &[u8]) -> PesHeader
        ensures { result ≡ header_of (unit_with n self ++ payload.now) }
    {
        PesHeader {
            stream_id: byte_at(self.stream_id, n, 3, payload),
            flags: byte_at(self.flags, n, 7, payload),
            header_data_length: byte_at(self.header_data_length, n, 8, payload),
            pts: stamp_at(self.pts, n, 9, payload),
            dts: stamp_at(self.dts, n, 14, payload),
        }
    }

    // Of a unit that has the optional header, as `stamp_end` and `content_begin` are.
    #[tactic(auto, unfolding(crate::specs::Unit::decode_ts_by, crate::specs::Joined::decode_ts_in))]
    fn decode_ts(self) -> Option<u64>
        ensures { result ≡ decode_ts_in true (self.flags / 64) self }
    {
        match self.flags / 64 {
            2 if 5 <= self.header_data_length => Some(stamp(self.pts)),
            3 if 10 <= self.header_data_length => Some(stamp(self.dts)),
            _ => None,
        }
    }

    // The two cuts and the stamp, from the header's bytes.
    #[tactic(auto, unfolding(crate::specs::Joined::cuts_by, crate::specs::Unit::stamp_end_by, crate::specs::Unit::content_begin_by, crate::specs::Joined::decode_ts_in, crate::specs::Unit::decode_ts_by))]
    fn cuts(self) -> UnitCuts
        ensures { result ≡ cuts_by self }
    {
        if !pes::has_optional_pes_header(self.stream_id) {
            return UnitCuts {
                stamp_end: 6,
                content_begin: 6,
                stamp: None,
            };
        }
        UnitCuts {
            stamp_end: stamp_end(self.flags / 64, self.header_data_length),
            content_begin: content_begin(self.header_data_length),
            stamp: self.decode_ts(),
        }
    }
}

#[tactic(auto, unfolding(crate::specs::State::header_of, crate::specs::State::stamp_bytes_at))]
fn no_header() -> PesHeader
    ensures { result ≡ header_of [] }
{
    PesHeader::default()
}

#[tactic(auto, unfolding(crate::specs::State::in_content))]
fn in_content() -> PesScanner
    ensures { result ≡ in_content }
{
    PesScanner {
        count: HEADER_LIMIT,
        started: true,
        header: no_header(),
    }
}

// What is kept behind a payload of so many bytes, whose unit had n before and has its content from t on.
#[tactic(auto, unfolding(crate::specs::Joined::kept_from))]
fn kept_behind(n: usize, size: usize, t: usize, h: PesHeader) -> PesScanner
    requires { t ≤ header_limit }
    ensures { result ≡ kept_from (n + size) t h }
{
    if t.saturating_sub(n) <= size {
        return in_content();
    }
    PesScanner {
        count: (n + size) as u16,
        started: true,
        header: h,
    }
}

// A payload of content alone.
fn only(body: usize) -> Runs
    ensures { result ≡ only_body body }
{
    Runs {
        body,
        ..Default::default()
    }
}

impl PesScanner {
    // A payload that starts no unit may have header bytes: a unit is open, and its content has not begun.
    // Ruled out: true before the first unit; false while header bytes may come.
    #[tactic(auto, unfolding(crate::specs::State::in_header))]
    pub fn in_header(self) -> bool
        ensures { result ≡ in_header self }
    {
        self.started && self.count < HEADER_LIMIT
    }

    // The runs of a payload of so many bytes that starts no unit and has no header bytes: content, or none before the first unit.
    // Ruled out: runs before the first unit; fewer bytes of content than the payload has.
    #[tactic(auto, unfolding(crate::specs::State::unfed_runs))]
    pub fn unfed(self, size: usize) -> Runs
        ensures { result ≡ unfed_runs self size }
    {
        only(if self.started { size } else { 0 })
    }

    // Before the first unit. Ruled out: a state that a payload without the start bit would get runs from; a unit open already.
    #[tactic(auto, unfolding(crate::specs::State::idle))]
    pub fn new() -> Self
        ensures { result ≡ idle }
    {
        PesScanner {
            count: 0,
            started: false,
            header: no_header(),
        }
    }

    // The state before a payload of so many bytes: that of an empty unit, where the payload starts one.
    #[tactic(auto, unfolding(crate::specs::Joined::begun_at))]
    fn begun(self, start: bool, size: usize) -> PesScanner
        ensures { result ≡ begun_at self start size }
    {
        if start && 0 < size {
            PesScanner {
                count: 0,
                started: true,
                header: no_header(),
            }
        } else {
            self
        }
    }

    // The next bytes of a unit whose content may not have begun.
    #[tactic(auto, using(crate::proofs::Steps::taken, crate::proofs::Steps::begin_limit))]
    fn take_in(self, payload: &[u8]) -> Fed
        requires { self.count < header_limit }
        ensures { result ≡ fed_of (unit (unit_with self.count self.header)) false payload.now }
    {
        let n = usize::from(self.count);
        let h = self.header.joined(n, payload);
        let cuts = h.cuts();
        Fed {
            runs: cuts.runs(n, payload.len()),
            scanner: kept_behind(n, payload.len(), cuts.content_begin, h),
        }
    }

    // The runs of a payload, and the state behind it.
    // Ruled out: runs before the first start, or from a start bit on an empty payload; the stamp with another run than the one that
    // reaches its end; the PTS where the DTS is coded.
    #[tactic(auto, using(crate::proofs::Steps::fed_open, crate::proofs::Steps::fed_none))]
    pub fn feed(self, payload: &[u8], payload_unit_start: bool) -> Fed
        ensures { result ≡ fed_of (open_of self) payload_unit_start payload.now }
    {
        let s = self.begun(payload_unit_start, payload.len());
        if !s.started {
            return Fed {
                runs: only(0),
                scanner: PesScanner::new(),
            };
        }
        if HEADER_LIMIT <= s.count {
            return Fed {
                runs: only(payload.len()),
                scanner: in_content(),
            };
        }
        s.take_in(payload)
    }
}
