//! Reads the block at the front of some bytes (the pcapng draft, 3.1 and 4).

ghost use Rattle.std.specs.Prelude.{◌≡◌, ℕ, ◌+◌, ◌≤◌, ◌^◌, true, [], length, slice_get, IfOk};
ghost use Rattle.cd_bytes.specs.Numbers.{number32_at};
ghost use Rattle.cd_pcapng.specs.Blocks.{is_section_header, head_length, told_order, order_of, least_length};
ghost use Rattle.cd_pcapng.specs.Blocks.{is_block_length, kind_of, section_front, interface_front, enhanced_front};
ghost use Rattle.cd_pcapng.specs.Blocks.{simple_front, content, whole_front};
ghost use Rattle.cd_pcapng.specs.Sections.{Section, section_of, interface_in, ticks_in, captured_in, enhanced_packet};
ghost use Rattle.cd_pcapng.specs.Fronts.{FrontIs, Finds, packet_in};
ghost use Rattle.cd_pcapng.specs.declared.front.Content.TheVariants.{Section as IsSection};
ghost use Rattle.cd_pcapng.specs.declared.kind.Kind.TheVariants.{SectionHeader};

use crate::clock::{is_resolution, time_on};
use crate::front::{Content, Front};
use crate::interface::Interface;
use crate::interface_options::{clock_options, padded};
use crate::kind::Kind;
use crate::ordered::{number16_at, number32_at};
use crate::packet_place::PacketPlace;
use cd_bytes::{Order, be32, le32};
use cd_packet::{CaptureWhy, When, has_magic};

/// The type of a section header, which reads the same in both orders.
pub const SECTION_HEADER: u32 = 0x0a0d_0d0a;

const INTERFACE: u32 = 1;

const SIMPLE_PACKET: u32 = 3;

const ENHANCED_PACKET: u32 = 6;

// The byte-order word of a section header.
const BYTE_ORDER: u32 = 0x1a2b_3c4d;

// The major version of a section that is read.
const MAJOR_VERSION: u16 = 1;

// As many bytes tell the order and the length of a section header.
const SECTION_HEAD: usize = 12;

// As many bytes tell the length of any other block.
const BLOCK_HEAD: usize = 8;

// The greatest length of a block.
const MOST_LENGTH: u32 = 16_777_216;

// As many bytes has an enhanced packet block without captured bytes.
const ENHANCED_LEAST: usize = 32;

// The captured bytes of an enhanced packet stand so far from the start of its block.
const ENHANCED_DATA: u64 = 28;

// The captured bytes of a simple packet stand so far from the start of its block.
const SIMPLE_DATA: u64 = 12;

// The greatest captured length of a packet.
const MOST_CAPTURED: usize = 262_144;

// As many interfaces a section may declare.
const MOST_INTERFACES: usize = 65_536;

// So many bytes tell the order and the length of the block at the front.
fn head_length(bytes: &[u8]) -> usize
    ensures { result ≡ head_length bytes.now }
{
    if has_magic(bytes, SECTION_HEADER) {
        SECTION_HEAD
    } else {
        BLOCK_HEAD
    }
}

// The order that the byte-order word of a section header tells.
fn told_order(bytes: &[u8]) -> Option<Order>
    requires { 12 ≤ length bytes.now }
    ensures { result ≡ told_order bytes.now }
{
    if le32(bytes, 8) == BYTE_ORDER {
        Some(Order::Little)
    } else if be32(bytes, 8) == BYTE_ORDER {
        Some(Order::Big)
    } else {
        None
    }
}

// The order of the numbers of the block at the front, in a section of this order.
fn order_of(order: Order, bytes: &[u8]) -> Option<Order>
    requires { head_length bytes.now ≤ length bytes.now }
    ensures { result ≡ order_of (section_of order []) bytes.now }
{
    if has_magic(bytes, SECTION_HEADER) {
        told_order(bytes)
    } else {
        Some(order)
    }
}

// The kind of the block at the front.
fn kind_of(order: Order, bytes: &[u8]) -> Kind
    requires { 4 ≤ length bytes.now }
    ensures { result ≡ kind_of order bytes.now }
{
    if has_magic(bytes, SECTION_HEADER) {
        return Kind::SectionHeader;
    }
    match number32_at(order, bytes, 0) {
        INTERFACE => Kind::Interface,
        ENHANCED_PACKET => Kind::EnhancedPacket,
        SIMPLE_PACKET => Kind::SimplePacket,
        _ => Kind::Other,
    }
}

// The least length that a block of this kind has.
fn least_length(kind: Kind) -> u32
    ensures { result ≡ least_length kind }
{
    match kind {
        Kind::SectionHeader => 28,
        Kind::Interface => 20,
        Kind::EnhancedPacket => 32,
        Kind::SimplePacket => 16,
        Kind::Other => 12,
    }
}

// Whether a block of this kind may have this length.
fn is_block_length(kind: Kind, size: u32) -> bool
    ensures { result ≡ is_block_length kind size }
{
    size >= least_length(kind) && size <= MOST_LENGTH && size % 4 == 0
}

// A section header.
fn section_content(order: Order, block: &[u8]) -> Result<Content, CaptureWhy>
    requires { 28 ≤ length block.now }
    ensures found { (s : Section) (at : ℕ) → Finds s at block.now (section_front order block.now) result }
    ensures section { IfOk result (λ found. found ≡ IsSection order) }
{
    if number16_at(order, block, 12) == MAJOR_VERSION {
        Ok(Content::Section(order))
    } else {
        Err(CaptureWhy::Section)
    }
}

// The interface that a block declares.
fn interface_in(order: Order, block: &[u8]) -> Interface
    requires { 20 ≤ length block.now }
    ensures { result ≡ interface_in order block.now }
{
    let clock = clock_options(order, &block[16..block.len() - 4]);
    Interface {
        link: number16_at(order, block, 8),
        resolution: clock.resolution,
        offset: clock.offset,
    }
}

// An interface, of which a section has at most 65,536.
fn interface_content(
    order: Order,
    interfaces: &[Interface],
    block: &[u8],
) -> Result<Content, CaptureWhy>
    requires { 20 ≤ length block.now }
    ensures { (before : Order) (at : ℕ) → Finds (section_of before interfaces.now) at block.now
        (interface_front order (section_of before interfaces.now) block.now) result }
{
    if interfaces.len() >= MOST_INTERFACES {
        return Err(CaptureWhy::Interface);
    }
    let interface = interface_in(order, block);
    if !is_resolution(interface.resolution) {
        return Err(CaptureWhy::Resolution);
    }
    Ok(Content::Interface(interface))
}

// The time of an enhanced packet, in units.
fn ticks_in(order: Order, block: &[u8]) -> u64
    requires { 32 ≤ length block.now }
    ensures { result ≡ ticks_in order block.now }
{
    u64::from(number32_at(order, block, 12)) * 0x1_0000_0000
        + u64::from(number32_at(order, block, 16))
}

// The captured length of an enhanced packet.
fn captured_in(order: Order, block: &[u8]) -> usize
    requires { 32 ≤ length block.now }
    ensures { result ≡ captured_in order block.now }
{
    number32_at(order, block, 20) as usize
}

// The packet of an enhanced packet block, on this interface.
fn enhanced_place(order: Order, interface: &Interface, at: u64, block: &[u8]) -> PacketPlace
    requires long { 32 + captured_in order block.now ≤ length block.now }
    requires few { at + length block.now ≤ 2 ^ 48 }
    ensures packet { packet_in at block.now result ≡ enhanced_packet order interface.now at block.now }
    ensures from { at ≤ result.captured_at }
    ensures to { result.captured_at + result.captured ≤ at + length block.now }
{
    PacketPlace {
        at,
        when: time_on(interface, ticks_in(order, block)),
        link: interface.link,
        original: number32_at(order, block, 24),
        captured_at: at + ENHANCED_DATA,
        captured: captured_in(order, block),
    }
}

// An enhanced packet.
fn enhanced_content(
    order: Order,
    interfaces: &[Interface],
    at: u64,
    block: &[u8],
) -> Result<Content, CaptureWhy>
    requires long { 32 ≤ length block.now }
    requires few { at + length block.now ≤ 2 ^ 48 }
    ensures { (s : Section) → Finds s at block.now
        (enhanced_front order (slice_get interfaces.now (number32_at order 8 block.now)) at block.now) result }
{
    let interface = match interfaces.get(number32_at(order, block, 8) as usize) {
        None => return Err(CaptureWhy::Interface),
        Some(interface) => interface,
    };
    let captured = captured_in(order, block);
    if captured > MOST_CAPTURED || block.len() < ENHANCED_LEAST + padded(captured) {
        return Err(CaptureWhy::Record);
    }
    Ok(Content::Packet(enhanced_place(order, interface, at, block)))
}

// A simple packet.
fn simple_content(
    order: Order,
    interfaces: &[Interface],
    at: u64,
    block: &[u8],
) -> Result<Content, CaptureWhy>
    requires long { 16 ≤ length block.now }
    requires few { at + length block.now ≤ 2 ^ 48 }
    ensures { (s : Section) → Finds s at block.now
        (simple_front order (slice_get interfaces.now 0) at block.now) result }
{
    let interface = match interfaces.first() {
        None => return Err(CaptureWhy::Interface),
        Some(interface) => interface,
    };
    let original = number32_at(order, block, 8);
    let captured = (original as usize).min(block.len() - 16);
    if captured > MOST_CAPTURED {
        return Err(CaptureWhy::Record);
    }
    Ok(Content::Packet(PacketPlace {
        at,
        when: When::Missing,
        link: interface.link,
        original,
        captured_at: at + SIMPLE_DATA,
        captured,
    }))
}

// What a whole block of this kind holds, whose two lengths agree.
fn content_of(
    order: Order,
    interfaces: &[Interface],
    at: u64,
    kind: Kind,
    block: &[u8],
) -> Result<Content, CaptureWhy>
    requires long { least_length kind ≤ length block.now }
    requires few { at + length block.now ≤ 2 ^ 48 }
    ensures found { (before : Order) → Finds (section_of before interfaces.now) at block.now
        (content order (section_of before interfaces.now) at kind block.now) result }
    ensures section { kind ≡ SectionHeader → IfOk result (λ found. found ≡ IsSection order) }
{
    match kind {
        Kind::SectionHeader => section_content(order, block),
        Kind::Interface => interface_content(order, interfaces, block),
        Kind::EnhancedPacket => enhanced_content(order, interfaces, at, block),
        Kind::SimplePacket => simple_content(order, interfaces, at, block),
        Kind::Other => Ok(Content::Other),
    }
}

// What a whole block holds.
fn whole_content(
    order: Order,
    interfaces: &[Interface],
    at: u64,
    block: &[u8],
) -> Result<Content, CaptureWhy>
    requires long { least_length (kind_of order block.now) ≤ length block.now }
    requires few { at + length block.now ≤ 2 ^ 48 }
    ensures found { (before : Order) → Finds (section_of before interfaces.now) at block.now
        (whole_front order (section_of before interfaces.now) at block.now) result }
    ensures section { is_section_header block.now ≡ true → IfOk result (λ found. found ≡ IsSection order) }
{
    if number32_at(order, block, block.len() - 4) as usize != block.len() {
        return Err(CaptureWhy::TrailerMismatch);
    }
    content_of(order, interfaces, at, kind_of(order, block), block)
}

/// What stands at the front of these bytes, which stand at this offset in a section of this order with these
/// interfaces. The first rule that applies decides, as soon as its bytes are there.
pub fn front_of(order: Order, interfaces: &[Interface], at: u64, bytes: &[u8]) -> Front
    requires { at + length bytes.now ≤ 2 ^ 48 }
    ensures { FrontIs (section_of order interfaces.now) at bytes.now result }
{
    if bytes.len() < head_length(bytes) {
        return Front::Cut;
    }
    let told = match order_of(order, bytes) {
        None => return Front::Refused(CaptureWhy::Order),
        Some(told) => told,
    };
    let size = number32_at(told, bytes, 4);
    if !is_block_length(kind_of(told, bytes), size) {
        return Front::Refused(CaptureWhy::BlockLength);
    }
    let size = size as usize;
    if bytes.len() < size {
        return Front::Cut;
    }
    match whole_content(told, interfaces, at, &bytes[..size]) {
        Err(why) => Front::Refused(why),
        Ok(content) => Front::Block(size, content),
    }
}
