//! The form of a pcap capture: the order of its numbers and the unit of its times (the pcap draft, 4).

ghost use Rattle.std.specs.Prelude.{◌≡◌};
ghost use Rattle.cd_pcap.specs.Pcap.{form_of};

use cd_bytes::Order;
use cd_packet::has_magic;

// The first four bytes of each form, as little-endian numbers.
const LITTLE_MICROS: u32 = 0xa1b2_c3d4;

const BIG_MICROS: u32 = 0xd4c3_b2a1;

const LITTLE_NANOS: u32 = 0xa1b2_3c4d;

const BIG_NANOS: u32 = 0x4d3c_b2a1;

/// The form of a capture.
#[derive(Clone, Copy)]
pub struct Form {
    /// Which byte of a number comes first.
    pub order: Order,
    /// How many nanoseconds a unit of the fractions of a second has: 1000 or 1.
    pub unit: u16,
}

/// The form that these first bytes of a capture tell. Fewer than four tell none.
#[tactic(auto, unfolding(crate::specs::Pcap::form_of))]
pub fn form_of(bytes: &[u8]) -> Option<Form>
    ensures { result ≡ form_of bytes.now }
{
    if has_magic(bytes, LITTLE_MICROS) {
        return Some(Form {
            order: Order::Little,
            unit: 1000,
        });
    }
    if has_magic(bytes, BIG_MICROS) {
        return Some(Form {
            order: Order::Big,
            unit: 1000,
        });
    }
    if has_magic(bytes, LITTLE_NANOS) {
        return Some(Form {
            order: Order::Little,
            unit: 1,
        });
    }
    if has_magic(bytes, BIG_NANOS) {
        return Some(Form {
            order: Order::Big,
            unit: 1,
        });
    }
    None
}
