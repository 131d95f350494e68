// The 188-byte transport packet (H.222.0 2.4.3.2), its adaptation field (2.4.3.4) and the physical layouts of a recording.
// Contracts cite the fields of tables 2-2 and 2-6 by name; only the code reads bytes.
#![tactic(auto)]

ghost use Rattle.std.specs.Prelude.{◌≡◌, cond, [], ◌+◌, ◌*◌, ◌/◌, ◌%◌, ◌≤◌, ◌<◌, eqb, leb, length, get_or, take, drop, Ok};
ghost use Rattle.syntax.specs.Bits.{bits};
ghost use Rattle.packet.specs.AdaptationField.{field_of, field_room, wants, room_of, extension_room, adaptation_field_of, extension_of, tcimsbf8};
ghost use Rattle.packet.specs.Places.{Flagged, Placed, Extended, clock_at, private_data_at, ltw_at, splice_at};
ghost use Rattle.packet.specs.Packet.{parse_of, packet_of, payload_of, private_data_of};
ghost use Rattle.packet.specs.Layout.{on_grid, layout_of, window_of};

// A clock reference: 33 bits of 90 kHz, and nine of 27 MHz.
#[derive(Clone, Copy)]
pub struct ClockReference {
    pub base: u64,
    pub extension: u16,
}

// The private data bytes: where they begin in the adaptation field, counted from its length byte, and how many they are.
#[derive(Clone, Copy)]
pub struct PrivateData {
    pub start: usize,
    pub len: usize,
}

#[derive(Clone, Copy)]
pub struct Ltw {
    pub valid: bool,
    pub offset: u16,
}

#[derive(Clone, Copy)]
pub struct SeamlessSplice {
    pub splice_type: u8,
    pub dts_next_au: u64,
}

#[derive(Clone, Copy, Default)]
pub struct AdaptationFieldExtension {
    pub length: u8,
    pub ltw: Option<Ltw>,
    pub piecewise_rate: Option<u32>,
    pub seamless_splice: Option<SeamlessSplice>,
}

// An optional part is present exactly if its flag is set.
#[derive(Clone, Copy, Default)]
pub struct AdaptationField {
    pub length: u8,
    pub discontinuity_indicator: bool,
    pub random_access_indicator: bool,
    pub elementary_stream_priority_indicator: bool,
    pub pcr: Option<ClockReference>,
    pub opcr: Option<ClockReference>,
    pub splice_countdown: Option<i8>,
    pub transport_private_data: Option<PrivateData>,
    pub adaptation_field_extension: Option<AdaptationFieldExtension>,
}

#[derive(Clone, Copy)]
pub struct TsPacket {
    pub pid: u16,
    pub payload_unit_start: bool,
    pub transport_error: bool,
    pub transport_priority: bool,
    pub transport_scrambling_control: u8,
    pub continuity_counter: u8,
    pub adaptation_field: Option<AdaptationField>,
    // Where the payload begins; 188 where there is none. A payload ends at 188, so that its length is 188 - payload_start in each packet.
    pub payload_start: usize,
}

// The bytes that are there, and those that a packet or a field of it needs.
#[derive(Clone, Copy, Debug, PartialEq, Eq)]
pub struct Truncated {
    pub have: usize,
    pub need: usize,
}

// Why bytes are no packet.
#[derive(Clone, Copy, Debug, PartialEq, Eq)]
pub enum TsError {
    Truncated(Truncated),
    BadSyncByte(u8),
}

impl From<Truncated> for TsError {
    ghost use Rattle.packet.specs.declared.TsError.{TsError};

    ghost from_gives = { λ t e. e ≡ TsError.Truncated t };

    // Ruled out: a bad sync byte; have and need exchanged.
    fn from(t: Truncated) -> TsError {
        TsError::Truncated(t)
    }
}

// Where the optional fields stand in an adaptation field, or would.
#[derive(Clone, Copy)]
struct Places {
    opcr: usize,
    splice_countdown: usize,
    private_length: usize,
    extension: usize,
}

// An adaptation field that has flags: the whole of it, its length byte first, and its byte of flags. That the flags are those of the bytes is
// asked by its three methods: one field is made for all of them, and as an invariant it would be shown there and read out again in each.
#[derive(Clone, Copy)]
struct Field<'a> {
    raw: &'a [u8],
    flags: u8,
}

// A byte behind the end reads as 0. Slice and place are two parameters, here and below, since a field's place is a sum of others: a struct of
// both would be made anew at each call. Where a place is below 1000 no such sum wraps; a type that said so would be taken apart at each sum.
fn byte_or_zero(raw: &[u8], at: usize) -> u8
    ensures { result ≡ get_or raw.now at 0 }
{
    raw.get(at).copied().unwrap_or(0)
}

// A field of n bytes from a place on, if it is there, ends within the limit. Whether it is there is its flag, as in the table.
#[tactic(auto, unfolding(crate::specs::AdaptationField::wants))]
fn ends_within(on: bool, limit: usize, at: usize, n: usize) -> Result<(), Truncated>
    requires { (at < 1000) × (n < 1000) }
    ensures { result ≡ wants limit on at n (Ok tt) }
{
    if on && limit < at + n {
        return Err(Truncated {
            have: limit.saturating_sub(at),
            need: n,
        });
    }
    Ok(())
}

// The place behind a field of n bytes, if it is there, which is its flag in the table too.
fn past(on: bool, at: usize, n: usize) -> usize
    requires { (at < 1000) × (n < 1000) }
    ensures { (result ≡ cond on (at + n) at) × (result ≤ at + n) }
{
    if on { at + n } else { at }
}

#[tactic(auto, using(syntax::proofs::Bytes::clock_base, syntax::proofs::Bytes::clock_extension))]
fn clock_at(raw: &[u8], at: usize) -> ClockReference
    requires { at < 1000 }
    ensures { result ≡ clock_at raw.now at }
{
    let high = u32::from_be_bytes([
        byte_or_zero(raw, at),
        byte_or_zero(raw, at + 1),
        byte_or_zero(raw, at + 2),
        byte_or_zero(raw, at + 3),
    ]);
    let p4 = byte_or_zero(raw, at + 4);
    ClockReference {
        base: u64::from(high) * 2 + u64::from(p4 / 128),
        extension: u16::from_be_bytes([p4 % 2, byte_or_zero(raw, at + 5)]),
    }
}

// Eight bits in two's complement.
fn countdown_at(raw: &[u8], at: usize) -> i8
    ensures { result ≡ tcimsbf8 (bits raw.now (8 * at) 8) }
{
    byte_or_zero(raw, at).cast_signed()
}

#[tactic(auto, using(syntax::proofs::Bits::byte))]
fn private_data_at(raw: &[u8], at: usize) -> PrivateData
    requires { at < 1000 }
    ensures { result ≡ private_data_at raw.now at }
{
    PrivateData {
        start: at + 1,
        len: usize::from(byte_or_zero(raw, at)),
    }
}

#[tactic(auto, using(syntax::proofs::Bytes::head, syntax::proofs::Bytes::number15))]
fn ltw_at(raw: &[u8], at: usize) -> Ltw
    requires { at < 1000 }
    ensures { result ≡ ltw_at raw.now at }
{
    let b0 = byte_or_zero(raw, at);
    Ltw {
        valid: b0 / 128 == 1,
        offset: u16::from_be_bytes([b0 % 128, byte_or_zero(raw, at + 1)]),
    }
}

#[tactic(auto, using(syntax::proofs::Bytes::number22))]
fn rate_at(raw: &[u8], at: usize) -> u32
    requires { at < 1000 }
    ensures { result ≡ bits raw.now (8 * at + 2) 22 }
{
    u32::from_be_bytes([
        0,
        byte_or_zero(raw, at) % 64,
        byte_or_zero(raw, at + 1),
        byte_or_zero(raw, at + 2),
    ])
}

#[tactic(auto, using(syntax::proofs::Bytes::head, syntax::proofs::Bytes::stamp, syntax::proofs::TimeStamp::timestamp_of))]
fn splice_at(raw: &[u8], at: usize) -> SeamlessSplice
    requires { at < 1000 }
    ensures { result ≡ splice_at raw.now at }
{
    let b0 = byte_or_zero(raw, at);
    SeamlessSplice {
        splice_type: b0 / 16,
        dts_next_au: pes::read_ts33([
            b0,
            byte_or_zero(raw, at + 1),
            byte_or_zero(raw, at + 2),
            byte_or_zero(raw, at + 3),
            byte_or_zero(raw, at + 4),
        ]),
    }
}

// Whether the extension whose length byte stands at `at` ends within the field, and the parts that it flags within it.
// Left as a call it costs a packet with an extension 19 instructions more in `header::read`.
// Where its parts begin is two sums, which `extension_at` forms again: a struct of both places would be longer than they are.
#[inline(always)]
fn extension_room(raw: &[u8], at: usize) -> Result<(), Truncated>
    requires { Extended raw.now at }
    ensures { result ≡ extension_room raw.now }
{
    ends_within(true, raw.len(), at, 1)?;
    let n = usize::from(byte_or_zero(raw, at));
    ends_within(true, raw.len(), at + 1, n)?;
    if n == 0 {
        return Ok(());
    }
    let end = at + 1 + n;
    let f = byte_or_zero(raw, at + 1);
    ends_within(f / 128 % 2 == 1, end, at + 2, 2)?;
    let rate = past(f / 128 % 2 == 1, at + 2, 2);
    ends_within(f / 64 % 2 == 1, end, rate, 3)?;
    let splice = past(f / 64 % 2 == 1, rate, 3);
    ends_within(f / 32 % 2 == 1, end, splice, 5)
}

// The extension whose length byte stands at `at`; one of length 0 has no flags.
#[tactic(auto, using(crate::proofs::ByPlaces::empty_extension))]
fn extension_at(raw: &[u8], at: usize) -> AdaptationFieldExtension
    requires { Extended raw.now at }
    ensures { result ≡ extension_of raw.now }
{
    let length = byte_or_zero(raw, at);
    if length == 0 {
        return AdaptationFieldExtension::default();
    }
    let f = byte_or_zero(raw, at + 1);
    let ltw = at + 2;
    let rate = past(f / 128 % 2 == 1, ltw, 2);
    let splice = past(f / 64 % 2 == 1, rate, 3);
    AdaptationFieldExtension {
        length,
        ltw: (f / 128 % 2 == 1).then(|| ltw_at(raw, ltw)),
        piecewise_rate: (f / 64 % 2 == 1).then(|| rate_at(raw, rate)),
        seamless_splice: (f / 32 % 2 == 1).then(|| splice_at(raw, splice)),
    }
}

impl Field<'_> {
    // Where the optional fields stand: each begins where the one before it ends.
    fn places(self) -> Places
        requires { Flagged self.raw.now self.flags }
        ensures { Placed self.entry.raw.now result }
    {
        let f = self.flags;
        let opcr = past(f / 16 % 2 == 1, 2, 6);
        let splice_countdown = past(f / 8 % 2 == 1, opcr, 6);
        let private_length = past(f / 4 % 2 == 1, splice_countdown, 1);
        let n = usize::from(byte_or_zero(self.raw, private_length));
        let extension = past(f / 2 % 2 == 1, private_length, 1 + n);
        Places {
            opcr,
            splice_countdown,
            private_length,
            extension,
        }
    }

    // Whether every optional field ends within the adaptation field.
    fn room(self, p: Places) -> Result<(), Truncated>
        requires flagged { Flagged self.raw.now self.flags }
        requires placed { Placed self.raw.now p }
        ensures { result ≡ room_of self.entry.raw.now }
    {
        let Field { raw, flags: f } = self;
        ends_within(f / 16 % 2 == 1, raw.len(), 2, 6)?;
        ends_within(f / 8 % 2 == 1, raw.len(), p.opcr, 6)?;
        ends_within(f / 4 % 2 == 1, raw.len(), p.splice_countdown, 1)?;
        let has_private_data = f / 2 % 2 == 1;
        ends_within(has_private_data, raw.len(), p.private_length, 1)?;
        let n = usize::from(byte_or_zero(raw, p.private_length));
        ends_within(has_private_data, raw.len(), p.private_length + 1, n)?;
        if f % 2 == 1 {
            return extension_room(raw, p.extension);
        }
        Ok(())
    }

    // The adaptation field's values.
    fn values(self, p: Places) -> AdaptationField
        requires flagged { Flagged self.raw.now self.flags }
        requires placed { Placed self.raw.now p }
        ensures { result ≡ adaptation_field_of self.entry.raw.now }
    {
        let Field { raw, flags: f } = self;
        // Not by `then`: its closure would have to repeat what `extension_at` requires.
        let adaptation_field_extension = if f % 2 == 1 {
            Some(extension_at(raw, p.extension))
        } else {
            None
        };
        AdaptationField {
            length: byte_or_zero(raw, 0),
            discontinuity_indicator: f / 128 % 2 == 1,
            random_access_indicator: f / 64 % 2 == 1,
            elementary_stream_priority_indicator: f / 32 % 2 == 1,
            pcr: (f / 16 % 2 == 1).then(|| clock_at(raw, 2)),
            opcr: (f / 8 % 2 == 1).then(|| clock_at(raw, p.opcr)),
            splice_countdown: (f / 4 % 2 == 1).then(|| countdown_at(raw, p.splice_countdown)),
            transport_private_data: (f / 2 % 2 == 1).then(|| private_data_at(
                raw,
                p.private_length,
            )),
            adaptation_field_extension,
        }
    }
}

// Whether the adaptation field that is the whole of `raw`, its length byte first, holds every part that it flags.
// Most fields have no part but a PCR, which is seen first.
// Ruled out: room for a PCR in a field of length 1; no room in a field of length 0.
#[tactic(auto, using(crate::proofs::ByPlaces::empty_field_room, crate::proofs::ByPlaces::short_field_room, crate::proofs::ByPlaces::flagged_field_room, crate::proofs::ByPlaces::pcr_room))]
pub fn adaptation_field_room(raw: &[u8]) -> Result<(), Truncated>
    ensures { result ≡ field_room raw.now }
{
    if byte_or_zero(raw, 0) == 0 {
        return Ok(());
    }
    if raw.len() < 2 {
        return Err(Truncated {
            have: raw.len(),
            need: 2,
        });
    }
    let flags = raw[1];
    if flags % 16 == 0 && 8 <= raw.len() {
        return Ok(());
    }
    let field = Field { raw, flags };
    field.room(field.places())
}

// The values of an adaptation field; one of length 0 has no flags.
#[tactic(auto, using(crate::proofs::ByPlaces::empty_field))]
fn adaptation_field_of(raw: &[u8]) -> AdaptationField
    ensures { result ≡ adaptation_field_of raw.now }
{
    if byte_or_zero(raw, 0) == 0 {
        return AdaptationField::default();
    }
    let field = Field {
        raw,
        flags: byte_or_zero(raw, 1),
    };
    field.values(field.places())
}

// The adaptation field that is the whole of `raw`, its length byte first.
#[tactic(auto, unfolding(crate::specs::AdaptationField::field_of, crate::specs::AdaptationField::field_in))]
fn parse_adaptation_field(raw: &[u8]) -> Result<AdaptationField, Truncated>
    ensures { result ≡ field_of raw.now }
{
    adaptation_field_room(raw)?;
    Ok(adaptation_field_of(raw))
}

// Where the payload begins, by byte 3 and the end of header and adaptation field.
// Ruled out: payload start 4 in a packet that has no payload; 188 in place of `from` in one that has.
pub fn payload_start_of(b3: u8, from: usize) -> usize
    ensures { result ≡ cond (eqb (b3 / 16 % 2) 1) from 188 }
{
    if b3 / 16 % 2 == 1 { from } else { 188 }
}

// The PID, by bytes 1 and 2. Ruled out: a PID with a bit of the flags before it; its two bytes the other way round.
pub fn pid_of(b1: u8, b2: u8) -> u16
    ensures { result ≡ b1 % 32 * 256 + b2 }
{
    u16::from_be_bytes([b1 % 32, b2])
}

#[tactic(auto, using(crate::proofs::Header::packet_by))]
fn with_header(bytes: &[u8], f: Option<AdaptationField>, from: usize) -> TsPacket
    requires { (188 ≤ length bytes.now) × (from ≤ 188) }
    ensures { result ≡ packet_of bytes.now f from }
{
    let b1 = bytes[1];
    let b2 = bytes[2];
    let b3 = bytes[3];
    TsPacket {
        pid: pid_of(b1, b2),
        payload_unit_start: b1 / 64 % 2 == 1,
        transport_error: b1 / 128 % 2 == 1,
        transport_priority: b1 / 32 % 2 == 1,
        transport_scrambling_control: b3 / 64,
        continuity_counter: b3 % 16,
        adaptation_field: f,
        payload_start: payload_start_of(b3, from),
    }
}

impl TsPacket {
    // Ruled out: a PID with a bit of the flags before it; a packet whose adaptation field ends behind byte 188.
    #[tactic(auto, using(crate::proofs::Cases::truncated, crate::proofs::Header::parse_sync, crate::proofs::Header::parse_bare, crate::proofs::Header::parse_over))]
    pub fn parse(bytes: &[u8]) -> Result<TsPacket, TsError>
        ensures { result ≡ parse_of bytes.now }
    {
        if bytes.len() < 188 {
            return Err(TsError::Truncated(Truncated {
                have: bytes.len(),
                need: 188,
            }));
        }
        let sync = bytes[0];
        if sync != 0x47 {
            return Err(TsError::BadSyncByte(sync));
        }
        if bytes[3] / 32 % 2 == 1 {
            let total = usize::from(bytes[4]) + 1;
            let end = 4 + total;
            if 188 < end {
                return Err(TsError::Truncated(Truncated {
                    have: 184,
                    need: total,
                }));
            }
            let f = parse_adaptation_field(&bytes[4..end])?;
            return Ok(with_header(bytes, Some(f), end));
        }
        Ok(with_header(bytes, None, 4))
    }
}

// At most n bytes from a place on.
fn part(bytes: &[u8], from: usize, n: usize) -> &[u8]
    ensures { result.now ≡ take n (drop from bytes.now) }
{
    let rest = &bytes[from.min(bytes.len())..];
    &rest[..n.min(rest.len())]
}

// The payload of a packet, from `payload_start` on; none from 188 on.
// Ruled out: bytes of the adaptation field; a part that ends before the packet.
#[tactic(auto, unfolding(crate::specs::Packet::payload_of))]
pub fn payload(bytes: &[u8], start: usize) -> &[u8]
    ensures { result.now ≡ payload_of bytes.now start }
{
    part(bytes, start, 188usize.saturating_sub(start))
}

impl PrivateData {
    // These bytes of a packet. Ruled out: the byte of the length; bytes behind them.
    #[tactic(auto, unfolding(crate::specs::Packet::private_data_of))]
    pub fn bytes_in(self, packet: &[u8]) -> &[u8]
        ensures { result.now ≡ private_data_of packet.now self.start self.len }
    {
        part(packet, self.start.saturating_add(4), self.len)
    }
}

#[derive(Clone, Copy)]
pub struct TsPacketLayout {
    pub packet_size: usize,
    pub sync_offset: usize,
}

impl TsPacketLayout {
    pub const STANDARD: Self = Self {
        packet_size: 188,
        sync_offset: 0,
    };

    pub const PREFIXED_192: Self = Self {
        packet_size: 192,
        sync_offset: 4,
    };

    pub const TRAILER_204: Self = Self {
        packet_size: 204,
        sync_offset: 0,
    };

    // At least two whole packets, and the sync byte in each of the first eight.
    #[tactic(auto, using(crate::proofs::Grid::grid_few, crate::proofs::Grid::grid_not))]
    fn on_grid(self, buf: &[u8]) -> bool
        requires { (self.sync_offset < self.packet_size) × (self.packet_size ≤ 204) }
        ensures { result ≡ on_grid buf.now self.packet_size self.sync_offset }
    {
        let whole = buf.len() / self.packet_size;
        if whole < 2 {
            return false;
        }
        for k in 0..whole.min(8) {
            if buf[k * self.packet_size + self.sync_offset] != 0x47 {
                return false;
            }
        }
        true
    }
}

// The layout of a recording by its first packets; the tests stand in the order in which they are tried.
// Ruled out: a layout on one whole packet; one whose second packet has no sync byte.
#[tactic(auto, unfolding(crate::specs::Layout::layout_of))]
pub fn detect_packet_layout(buf: &[u8]) -> Option<TsPacketLayout>
    ensures { result ≡ layout_of buf.now }
{
    if TsPacketLayout::STANDARD.on_grid(buf) {
        return Some(TsPacketLayout::STANDARD);
    }
    if TsPacketLayout::PREFIXED_192.on_grid(buf) {
        return Some(TsPacketLayout::PREFIXED_192);
    }
    if TsPacketLayout::TRAILER_204.on_grid(buf) {
        return Some(TsPacketLayout::TRAILER_204);
    }
    None
}

// The 188 bytes from a place on; none where the recording ends sooner, which a parse refuses as truncated, so that no caller has to ask.
// Ruled out: a shorter part at the recording's end; one that begins elsewhere.
#[tactic(auto, using(crate::proofs::Parts::window_fits))]
pub fn window_at(bytes: &[u8], from: usize) -> &[u8]
    ensures { result.now ≡ cond (leb (from + 188) (length bytes.now)) (take 188 (drop from bytes.now)) [] }
{
    let len = bytes.len();
    if len < 188 || len - 188 < from {
        return &[];
    }
    &bytes[from..from + 188]
}

// The 188 bytes of packet k.
// Ruled out: a part that holds bytes of the prefix; a shorter part at the recording's end.
#[tactic(auto, unfolding(crate::specs::Layout::window_of), using(crate::proofs::Parts::window_short, crate::proofs::Parts::past_length))]
pub fn window(bytes: &[u8], layout: TsPacketLayout, k: usize) -> &[u8]
    ensures { result.now ≡ window_of bytes.now layout.packet_size layout.sync_offset k }
{
    let size = layout.packet_size;
    let off = layout.sync_offset;
    let len = bytes.len();
    if size == 0 {
        return window_at(bytes, off);
    }
    if len / size < k {
        return &[];
    }
    let start = k * size;
    if len - start < off {
        return &[];
    }
    window_at(bytes, start + off)
}
