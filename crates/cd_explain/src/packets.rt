//! Packets of a capture, and the datagrams in them.

use crate::captures::{Visit, Walked};
use crate::text::{put_hex, put_time};
use cd_packet::{
    Addr, BadCapture, CaptureWhy, Dgram, EndState, Layer, Packet, Reason, When, layers,
};
use std::alloc::AllocError;
use std::fmt::Write;
use std::net::{Ipv4Addr, Ipv6Addr};

fn fault_of_captures(why: CaptureWhy) -> &'static str {
    match why {
        CaptureWhy::Magic => "magic",
        CaptureWhy::Version => "version",
        CaptureWhy::Record => "record",
        CaptureWhy::Section => "section",
        CaptureWhy::Order => "order",
        CaptureWhy::BlockLength => "block-length",
        CaptureWhy::TrailerMismatch => "trailer-mismatch",
        CaptureWhy::Interface => "interface",
        CaptureWhy::Resolution => "resolution",
    }
}

fn reason_of_layers(reason: Reason) -> &'static str {
    match reason {
        Reason::Link => "link",
        Reason::Length => "length",
        Reason::NotIp => "not-ip",
        Reason::Fragment => "fragment",
        Reason::NotUdp => "not-udp",
        Reason::Port => "port",
        Reason::Cut => "cut",
        Reason::Time => "time",
        Reason::NoTime => "no-time",
    }
}

fn put_bad(text: &mut String, field: &str, bad: BadCapture) -> Result<(), AllocError> {
    writeln!(text, "{field} {} at {}", fault_of_captures(bad.why), bad.at)
}

/// What the last chunk was answered, and how the capture ends.
pub fn put_walked(text: &mut String, walked: Walked) -> Result<(), AllocError> {
    if let Some(bad) = walked.refused {
        put_bad(text, "refused", bad)?;
    }
    match walked.end {
        EndState::Whole => text.push_str("end whole\n"),
        EndState::Cut => text.push_str("end cut\n"),
        EndState::Bad(bad) => put_bad(text, "end bad", bad),
    }
}

fn put_when(text: &mut String, when: When) -> Result<(), AllocError> {
    match when {
        When::At(time) => put_time(text, time),
        When::Outside => text.push_str("outside"),
        When::Missing => text.push_str("missing"),
    }
}

/// An address, as people write it.
pub fn put_address(text: &mut String, addr: &Addr) -> Result<(), AllocError> {
    if addr.v6 {
        return write!(text, "{}", Ipv6Addr::from(addr.octets));
    }
    let [a, b, c, d, ..] = addr.octets;
    write!(text, "{}", Ipv4Addr::new(a, b, c, d))
}

/// Writes a line for each packet.
#[derive(Drop)]
pub struct Packets<'a> {
    pub text: &'a mut String,
}

impl Visit for Packets<'_> {
    fn packet(&mut self, packet: &Packet) -> Result<(), AllocError> {
        write!(self.text, "packet {} time ", packet.at)?;
        put_when(self.text, packet.when)?;
        write!(self.text, " link-type {}", packet.link)?;
        write!(self.text, " original-length {} bytes ", packet.original)?;
        put_hex(self.text, packet.bytes.as_slice())?;
        self.text.push('\n')
    }
}

fn put_dgram(text: &mut String, dgram: &Dgram) -> Result<(), AllocError> {
    text.push_str("datagram time ")?;
    put_time(text, dgram.time)?;
    text.push_str(" source ")?;
    put_address(text, &dgram.src)?;
    write!(text, " port {} destination ", dgram.sport)?;
    put_address(text, &dgram.dst)?;
    write!(
        text,
        " port {} hop-limit {} payload ",
        dgram.dport, dgram.hop
    )?;
    put_hex(text, dgram.payload)?;
    text.push('\n')
}

/// Writes for each packet its datagram for a port of DNS, or why there is none.
#[derive(Drop)]
pub struct Layers<'a> {
    pub text: &'a mut String,
    pub port: u16,
}

impl Visit for Layers<'_> {
    fn packet(&mut self, packet: &Packet) -> Result<(), AllocError> {
        write!(self.text, "packet {} ", packet.at)?;
        match layers(packet, self.port) {
            Layer::Dgram(dgram) => put_dgram(self.text, &dgram),
            Layer::Skip(reason) => writeln!(self.text, "skip {}", reason_of_layers(reason)),
        }
    }
}
