//! The options of an interface (the pcapng draft, 3.5 and 4.2).

ghost use Rattle.std.specs.Prelude.{◌≡◌, ◌+◌, ◌≤◌, true, false, pos, length, drop, MatchOption};
ghost use Rattle.cd_pcapng.specs.Options.{ends_options, option_length, option_at, padded, options};
ghost use Rattle.cd_pcapng.specs.Options.{next_resolution, next_offset, resolution_after, offset_after};
ghost use Rattle.cd_pcapng.specs.Options.{resolution_of, offset_of};

use crate::ordered::number16_at;
use cd_bytes::{Cursor, Order};

// As many bytes stand before the value of an option.
const OPTION_HEADER: usize = 4;

// The code that ends the options.
const END_OF_OPTIONS: u16 = 0;

// The code of the resolution of an interface's clock: if_tsresol.
const RESOLUTION: u16 = 9;

// The code of the offset of an interface's clock: if_tsoffset.
const OFFSET: u16 = 14;

// Where no option tells it, the unit is a microsecond.
const MICROSECONDS: u8 = 6;

// An option without its padding.
#[derive(Drop)]
struct BlockOption<'a> {
    code: u16,
    value: &'a [u8],
}

/// The clock of an interface, as its options tell it.
#[derive(Clone, Copy)]
pub struct ClockOptions {
    /// The resolution.
    pub resolution: u8,
    /// Seconds that are added to each time.
    pub offset: i64,
}

// The option at the front of these bytes, unless the options end there.
fn option_at<'a>(order: Order, bytes: &'a [u8]) -> Option<BlockOption<'a>>
    ensures { MatchOption result (ends_options order bytes.now ≡ true) (λ o.
        (ends_options order bytes.now ≡ false)
        × (record { code = o.code; value = o.value.now } ≡ option_at order bytes.now)
        × (length o.value.now ≤ 65535) × (length o.value.now ≡ option_length order bytes.now)
        × (4 ≤ length bytes.now)) }
{
    if bytes.len() < OPTION_HEADER {
        return None;
    }
    let code = number16_at(order, bytes, 0);
    let size = usize::from(number16_at(order, bytes, 2));
    if code == END_OF_OPTIONS || bytes.len() < OPTION_HEADER + size {
        return None;
    }
    Some(BlockOption {
        code,
        value: &bytes[OPTION_HEADER..OPTION_HEADER + size],
    })
}

// The resolution after an option.
fn next_resolution(resolution: u8, option: &BlockOption) -> u8
    ensures { result ≡ next_resolution resolution (record { code = option.now.code; value = option.now.value.now }) }
{
    if option.code == RESOLUTION && option.value.len() == 1 {
        option.value[0]
    } else {
        resolution
    }
}

// The offset after an option.
fn next_offset(order: Order, offset: i64, option: &BlockOption) -> i64
    ensures { result ≡ next_offset order offset (record { code = option.now.code; value = option.now.value.now }) }
{
    if option.code != OFFSET || option.value.len() != 8 {
        return offset;
    }
    match Cursor::new(option.value).number64(order) {
        Ok(seconds) => seconds.cast_signed(),
        Err(_) => offset,
    }
}

/// So many bytes with their padding, up to a multiple of four.
pub fn padded(size: usize) -> usize
    requires { size ≤ 262144 }
    ensures { result ≡ padded size }
{
    (size + 3) / 4 * 4
}

// The clock after an option.
fn next_clock(order: Order, clock: ClockOptions, option: &BlockOption) -> ClockOptions
    ensures resolution { result.resolution
        ≡ next_resolution clock.resolution (record { code = option.now.code; value = option.now.value.now }) }
    ensures offset { result.offset
        ≡ next_offset order clock.offset (record { code = option.now.code; value = option.now.value.now }) }
{
    ClockOptions {
        resolution: next_resolution(clock.resolution, option),
        offset: next_offset(order, clock.offset, option),
    }
}

/// The clock that the options in these bytes tell: the last one of each kind holds.
pub fn clock_options(order: Order, bytes: &[u8]) -> ClockOptions
    ensures resolution { result.resolution ≡ resolution_of order bytes.now }
    ensures offset { result.offset ≡ offset_of order bytes.now }
{
    let mut clock = ClockOptions {
        resolution: MICROSECONDS,
        offset: 0,
    };
    let mut rest = bytes;
    'options: loop {
        let option = match option_at(order, rest) {
            None => return clock,
            Some(option) => option,
        };
        clock = next_clock(order, clock, &option);
        let size = OPTION_HEADER + padded(option.value.len());
        rest = &rest[size.min(rest.len())..];
    }
}
