// Layouts, windows and parses of small recordings, a line for each: the figures are those of the Rust's `packet.rs`.
#![tactic(auto)]

ghost use Rattle.std.specs.Prelude.{◌≡◌, length};

use packet::{
    AdaptationField, AdaptationFieldExtension, ClockReference, PrivateData, TsError, TsPacket,
    TsPacketLayout,
};
use std::io;

fn text(rt: &impl Print, t: &str) -> io::Result<()> {
    rt.print(t)
}

fn number(rt: &impl Print, n: impl Into<u64>) -> io::Result<()> {
    let n: u64 = n.into();
    print!(rt; ",{n}")
}

fn size(rt: &impl Print, n: usize) -> io::Result<()> {
    number(rt, n as u64)
}

fn line(rt: &impl Print) -> io::Result<()> {
    rt.print("\n")
}

// Where a line is printed and what it tells of are two parameters, here and below.
fn layout(rt: &impl Print, buf: &[u8]) -> io::Result<()> {
    match packet::detect_packet_layout(buf) {
        Some(y) => {
            text(rt, "layout")?;
            size(rt, y.packet_size)?;
            size(rt, y.sync_offset)?;
        }
        None => text(rt, "nothing")?,
    }
    line(rt)
}

// The length of packet k's window, and its first byte.
fn window(rt: &impl Print, buf: &[u8], y: TsPacketLayout, k: usize) -> io::Result<()> {
    let w = packet::window(buf, y, k);
    text(rt, "window")?;
    size(rt, w.len())?;
    if 0 < w.len() {
        number(rt, w[0])?;
    }
    line(rt)
}

fn clock(rt: &impl Print, c: Option<ClockReference>) -> io::Result<()> {
    match c {
        None => text(rt, ",-"),
        Some(r) => {
            number(rt, r.base)?;
            number(rt, r.extension)
        }
    }
}

// Whether the countdown is below 0, and whether it is -5.
fn countdown(rt: &impl Print, c: Option<i8>) -> io::Result<()> {
    match c {
        None => text(rt, ",-"),
        Some(n) => {
            number(rt, n < 0)?;
            number(rt, n == -5)
        }
    }
}

fn private_data(rt: &impl Print, bytes: &[u8], p: Option<PrivateData>) -> io::Result<()> {
    match p {
        None => text(rt, ",-"),
        Some(p) => {
            let d = p.bytes_in(bytes);
            size(rt, d.len())?;
            if 0 < d.len() {
                number(rt, d[0])?;
            }
            Ok(())
        }
    }
}

fn extension_of(rt: &impl Print, e: AdaptationFieldExtension) -> io::Result<()> {
    number(rt, e.length)?;
    match e.ltw {
        None => text(rt, ",-")?,
        Some(l) => {
            number(rt, l.valid)?;
            number(rt, l.offset)?;
        }
    }
    match e.piecewise_rate {
        None => text(rt, ",-")?,
        Some(r) => number(rt, r)?,
    }
    match e.seamless_splice {
        None => text(rt, ",-"),
        Some(s) => {
            number(rt, s.splice_type)?;
            number(rt, s.dts_next_au)
        }
    }
}

fn field(rt: &impl Print, bytes: &[u8], f: AdaptationField) -> io::Result<()> {
    number(rt, f.length)?;
    number(rt, f.discontinuity_indicator)?;
    number(rt, f.random_access_indicator)?;
    number(rt, f.elementary_stream_priority_indicator)?;
    clock(rt, f.pcr)?;
    clock(rt, f.opcr)?;
    countdown(rt, f.splice_countdown)?;
    private_data(rt, bytes, f.transport_private_data)?;
    match f.adaptation_field_extension {
        None => text(rt, ",-"),
        Some(e) => extension_of(rt, e),
    }
}

fn parsed(rt: &impl Print, bytes: &[u8], p: TsPacket) -> io::Result<()> {
    text(rt, "packet")?;
    number(rt, p.pid)?;
    number(rt, p.payload_unit_start)?;
    number(rt, p.transport_error)?;
    number(rt, p.transport_priority)?;
    number(rt, p.transport_scrambling_control)?;
    number(rt, p.continuity_counter)?;
    size(rt, packet::payload(bytes, p.payload_start).len())?;
    match p.adaptation_field {
        None => text(rt, ",-"),
        Some(a) => field(rt, bytes, a),
    }
}

fn parse(rt: &impl Print, bytes: &[u8]) -> io::Result<()> {
    match TsPacket::parse(bytes) {
        Ok(p) => parsed(rt, bytes, p)?,
        Err(TsError::Truncated(t)) => {
            text(rt, "truncated")?;
            size(rt, t.have)?;
            size(rt, t.need)?;
        }
        Err(TsError::BadSyncByte(b)) => {
            text(rt, "sync")?;
            number(rt, b)?;
        }
    }
    line(rt)
}

// A packet of PID 0x1FFF with every flag of the header set, and control and counter in the last byte.
fn header(control: u8) -> [u8; 188]
    ensures { 188 ≡ length result }
{
    let mut p = [0u8; 188];
    p[0] = 0x47;
    p[1] = 0xFF;
    p[2] = 0xFF;
    p[3] = control;
    p
}

fn layouts(rt: &impl Print) -> io::Result<()> {
    let mut a = [0u8; 376];
    a[0] = 0x47;
    a[188] = 0x47;
    layout(rt, &a)?;
    layout(rt, &a[..375])?;
    window(rt, &a, TsPacketLayout::STANDARD, 1)?;
    window(rt, &a, TsPacketLayout::STANDARD, 2)?;
    let mut b = [0u8; 384];
    b[4] = 0x47;
    b[196] = 0x47;
    layout(rt, &b)?;
    window(rt, &b, TsPacketLayout::PREFIXED_192, 1)?;
    let mut c = [0u8; 408];
    c[0] = 0x47;
    c[204] = 0x47;
    layout(rt, &c)?;
    window(rt, &c, TsPacketLayout::TRAILER_204, 1)
}

// Fields that end too soon: PCR, private data, the extension and its piecewise rate.
fn short_fields(rt: &impl Print) -> io::Result<()> {
    let mut p = header(0x30);
    p[4] = 3;
    p[5] = 0x10;
    parse(rt, &p)?;
    p[4] = 4;
    p[5] = 0x02;
    p[6] = 9;
    parse(rt, &p)?;
    p[5] = 0x01;
    parse(rt, &p)?;
    p[4] = 3;
    p[6] = 1;
    p[7] = 0x40;
    parse(rt, &p)
}

// A whole packet, without its last byte, and without its first.
fn whole_and_cut(rt: &impl Print, p: &[u8]) -> io::Result<()> {
    let n = p.len();
    parse(rt, p)?;
    if 0 < n {
        let end = n - 1;
        parse(rt, &p[0..end])?;
        parse(rt, &p[1..n])?;
    }
    Ok(())
}

// Every flag, PCR 90000 and an OPCR of ones.
fn clocks() -> [u8; 188]
    ensures { 188 ≡ length result }
{
    let mut p = header(0xF5);
    p[4] = 40;
    p[5] = 0xFF;
    p[8] = 0xAF;
    p[9] = 0xC8;
    p[10] = 0x7E;
    p[12] = 0xFF;
    p[13] = 0xFF;
    p[14] = 0xFF;
    p[15] = 0xFF;
    p[16] = 0xFF;
    p[17] = 0xFF;
    p
}

// Behind them countdown -5, three private bytes, and an extension with all its fields.
fn full(rt: &impl Print) -> io::Result<()> {
    let mut p = clocks();
    p[18] = 251;
    p[19] = 3;
    p[20] = 9;
    p[23] = 12;
    p[24] = 0xE0;
    p[25] = 0x81;
    p[26] = 0x02;
    p[27] = 0xFF;
    p[28] = 0x01;
    p[29] = 0x02;
    p[30] = 0x51;
    p[32] = 0x05;
    p[33] = 0xBF;
    p[34] = 0x21;
    whole_and_cut(rt, &p)
}

// Control 00, then a bad sync byte, then control 01.
fn headers(rt: &impl Print) -> io::Result<()> {
    let mut p = header(0x00);
    parse(rt, &p)?;
    p[0] = 0x48;
    parse(rt, &p)?;
    p[0] = 0x47;
    p[3] = 0x1A;
    parse(rt, &p)
}

// Adaptation fields of length 183, 184 and 0, and an extension of length 0.
fn lengths(rt: &impl Print) -> io::Result<()> {
    let mut p = header(0x20);
    p[4] = 183;
    p[5] = 0xFF;
    parse(rt, &p)?;
    p[5] = 0x00;
    parse(rt, &p)?;
    p[4] = 184;
    parse(rt, &p)?;
    p[4] = 0;
    parse(rt, &p)?;
    p[4] = 2;
    p[5] = 0x01;
    parse(rt, &p)
}

fn main(rt: HostRuntime) -> io::Result<()> {
    layouts(&rt)?;
    full(&rt)?;
    headers(&rt)?;
    lengths(&rt)?;
    short_fields(&rt)
}
