//! The header and the records of a pcap capture, in the form that its magic tells (the pcap draft, 4 and 5).

ghost use Rattle.std.specs.Prelude.{◌≡◌, ◌+◌, ◌*◌, ◌≤◌, ◌^◌, length, Some, IfOk};
ghost use Rattle.cd_pcap.specs.Pcap.{form_of, captured_length, packet_at};
ghost use Rattle.cd_packet.specs.Time.{when_at};
ghost use Rattle.cd_pcap.specs.Fronts.{HeaderIs, FrontIs, RecordsAre};
ghost use Rattle.cd_pcap.specs.Reading.{open_end};

use crate::form::{Form, form_of};
use crate::ordered::{number16_at, number32_at};
use cd_name::Blob;
use cd_packet::{BadCapture, CaptureWhy, EndState, Packet, When};
use std::alloc::{AllocError, Global};

// As many bytes tell whether a capture is of a format that is read.
const MAGIC_SIZE: usize = 4;

/// As many bytes has the header of a capture.
pub const HEADER: usize = 24;

const RECORD_HEADER: usize = 16;

// The greatest captured length that a record may have.
const MOST_CAPTURED: u32 = 262_144;

// The first nanosecond that is no time: 2^32 seconds.
const END_OF_TIME: u64 = 4_294_967_296_000_000_000;

/// What stands at the front of a capture.
#[derive(Drop)]
pub enum Header {
    /// A header in this form, of this link type.
    Read(Form, u16),
    /// No whole header.
    Open,
    /// A refused place.
    Refused(BadCapture),
}

/// What stands at the front of some bytes after the header.
#[derive(Drop)]
pub enum Front {
    /// A whole record of this many bytes.
    Record(usize),
    /// No whole record.
    Open,
    /// A refused place.
    Refused(BadCapture),
}

/// The whole records at the front of some bytes after the header.
#[derive(Drop)]
pub struct Records {
    /// How many bytes they have.
    pub size: usize,
    /// The refused place after them, where it came.
    pub refused: Option<BadCapture>,
}

// The header at the front of these bytes, whose magic tells this form.
fn header_in(form: Form, bytes: &[u8]) -> Header
    requires magic { form_of bytes.now ≡ Some form }
    requires told { 4 ≤ length bytes.now }
    ensures { HeaderIs bytes.now result }
{
    if bytes.len() < HEADER {
        return Header::Open;
    }
    if number16_at(form.order, bytes, 4) != 2 {
        return Header::Refused(BadCapture {
            at: 0,
            why: CaptureWhy::Version,
        });
    }
    // The low half of a word: the high half says of a checksum after each packet.
    Header::Read(form, (number32_at(form.order, bytes, 20) % 0x1_0000) as u16)
}

/// What stands at the front of these first bytes of a capture (the pcap draft, 4).
pub fn header_of(bytes: &[u8]) -> Header
    ensures { HeaderIs bytes.now result }
{
    if bytes.len() < MAGIC_SIZE {
        return Header::Open;
    }
    match form_of(bytes) {
        Some(form) => header_in(form, bytes),
        None => Header::Refused(BadCapture {
            at: 0,
            why: CaptureWhy::Magic,
        }),
    }
}

// What stands at the front of these bytes after the header, at this offset (the pcap draft, 5).
fn front_of(form: Form, at: u64, bytes: &[u8]) -> Front
    ensures { FrontIs form at bytes.now result }
{
    if bytes.len() < RECORD_HEADER {
        return Front::Open;
    }
    let size = number32_at(form.order, bytes, 8);
    if MOST_CAPTURED < size {
        return Front::Refused(BadCapture {
            at,
            why: CaptureWhy::Record,
        });
    }
    if bytes.len() - RECORD_HEADER < size as usize {
        return Front::Open;
    }
    Front::Record(RECORD_HEADER + size as usize)
}

/// The whole records at the front of these bytes after the header, at this offset.
pub fn whole_records(form: Form, at: u64, bytes: &[u8]) -> Records
    requires { at + length bytes.now ≤ 2 ^ 48 }
    ensures { RecordsAre form at bytes.now result }
{
    let mut size = 0;
    'records: loop {
        match front_of(form, at + size as u64, &bytes[size..]) {
            Front::Record(more) => size += more,
            Front::Open => return Records {
                size,
                refused: None,
            },
            Front::Refused(bad) => {
                return Records {
                    size,
                    refused: Some(bad),
                };
            }
        }
    }
}

/// How these bytes end, where they hold neither a whole record nor a refused place. Fewer than four are no capture.
pub fn open_end(link: Option<u16>, bytes: &[u8]) -> EndState
    ensures { result ≡ open_end link bytes.now }
{
    match link {
        Some(_) => {
            if bytes.is_empty() {
                EndState::Whole
            } else {
                EndState::Cut
            }
        }
        None => {
            if bytes.len() < MAGIC_SIZE {
                EndState::Bad(BadCapture {
                    at: 0,
                    why: CaptureWhy::Magic,
                })
            } else {
                EndState::Cut
            }
        }
    }
}

/// How many bytes the record at the front of these bytes has.
pub fn record_size(form: Form, bytes: &[u8]) -> usize
    requires { 16 ≤ length bytes.now }
    ensures { result ≡ 16 + captured_length form bytes.now }
{
    RECORD_HEADER + number32_at(form.order, bytes, 8) as usize
}

// The time of some seconds since 1970 and a fraction, in units of so many nanoseconds.
fn time_of(seconds: u32, fraction: u32, unit: u16) -> When
    ensures { result ≡ when_at (seconds * 1000000000 + fraction * unit) }
{
    let nanos = seconds as u64 * 1_000_000_000 + fraction as u64 * unit as u64;
    if nanos < END_OF_TIME {
        When::At(nanos)
    } else {
        When::Outside
    }
}

/// The packet of the whole record at the front of these bytes after the header, at this offset (the pcap draft, 5).
pub fn packet_of(
    alloc: Global,
    form: Form,
    link: u16,
    at: u64,
    bytes: &[u8],
) -> Result<Packet, AllocError>
    requires { 16 + captured_length form bytes.now ≤ length bytes.now }
    ensures { IfOk result (λ p. p ≡ packet_at form link at bytes.now) }
{
    let size = number32_at(form.order, bytes, 8) as usize;
    let seconds = number32_at(form.order, bytes, 0);
    let fraction = number32_at(form.order, bytes, 4);
    let when = time_of(seconds, fraction, form.unit);
    let original = number32_at(form.order, bytes, 12);
    let captured = &bytes[RECORD_HEADER..RECORD_HEADER + size];
    Ok(Packet {
        at,
        when,
        link,
        original,
        bytes: Blob::from_vec(Vec::from_slice(alloc, captured)?),
    })
}
