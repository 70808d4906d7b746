//! The options of `compact`: a table of names, intervals and defaults.

ghost use Rattle.std.specs.Prelude.{◌≡◌, ◌≢◌, ◌↔◌, All, IsTrue, MatchOption};
ghost use Rattle.cd_hints.specs.declared.settings.options.NumberOption.{NumberOption};
ghost use Rattle.cd_hints.specs.declared.settings.options.ListOption.{ListOption};
ghost use Rattle.cd_hints.specs.Options.{name_of, option_range, option_default, list_name_of, list_range, list_default};
ghost use Rattle.cd_hints.specs.Options.{IsAllowed, Admits};

use crate::settings::interval::Interval;
use cd_block::hints::{QR_PROCESSING_DATA, SIG_QR_TYPE};

/// An option whose value is a number.
#[derive(Clone, Copy, Debug, PartialEq, Eq)]
pub enum NumberOption {
    /// The number of workers: `workers` of the settings.
    Workers,
    /// Ticks in a second: `ticks` of the parameters.
    Ticks,
    /// How long a query waits for its response, in milliseconds: `query_ms` of the parameters.
    QueryTimeout,
    /// How much earlier than its query a response may stand, in microseconds: `skew_us` of the parameters.
    SkewTimeout,
    /// Events that may wait at once: `window` of the settings.
    Window,
    /// The weight of the events that may wait at once: `window_bytes` of the settings.
    WindowBytes,
    /// Items of a block: `max_items` of the parameters.
    BlockItems,
    /// The weight of the events of a block: `block_bytes` of the settings.
    BlockBytes,
    /// Query-response hints: `qr` of the hints.
    QrHints,
    /// Signature hints: `sig` of the hints.
    SigHints,
    /// Resource record hints: `rr` of the hints.
    RrHints,
    /// Other data hints: `other` of the hints.
    OtherHints,
    /// Bits that are kept of a client's address of IPv4: the first of the prefixes.
    ClientPrefix4,
    /// Bits that are kept of a client's address of IPv6: the second of the prefixes.
    ClientPrefix6,
    /// Bits that are kept of a server's address of IPv4: the third of the prefixes.
    ServerPrefix4,
    /// Bits that are kept of a server's address of IPv6: the fourth of the prefixes.
    ServerPrefix6,
    /// The port of DNS: `port` of the settings.
    Port,
    /// Bytes of the input that are read: `max_input` of the settings.
    MaxInput,
}

/// An option whose value is a list of numbers.
#[derive(Clone, Copy, Debug, PartialEq, Eq)]
pub enum ListOption {
    /// The opcodes that are kept: `opcodes` of the parameters.
    Opcodes,
    /// The types of the records that are kept: `rr_types` of the parameters.
    RrTypes,
}

static NUMBER_OPTIONS: [NumberOption; 18] = [
    NumberOption::Workers,
    NumberOption::Ticks,
    NumberOption::QueryTimeout,
    NumberOption::SkewTimeout,
    NumberOption::Window,
    NumberOption::WindowBytes,
    NumberOption::BlockItems,
    NumberOption::BlockBytes,
    NumberOption::QrHints,
    NumberOption::SigHints,
    NumberOption::RrHints,
    NumberOption::OtherHints,
    NumberOption::ClientPrefix4,
    NumberOption::ClientPrefix6,
    NumberOption::ServerPrefix4,
    NumberOption::ServerPrefix6,
    NumberOption::Port,
    NumberOption::MaxInput,
];

static LIST_OPTIONS: [ListOption; 2] = [ListOption::Opcodes, ListOption::RrTypes];

static DEFAULT_OPCODES: [Interval; 1] = [Interval { least: 0, most: 6 }];

static DEFAULT_RR_TYPES: [Interval; 2] = [
    Interval {
        least: 1,
        most: 260,
    },
    Interval {
        least: 32768,
        most: 32769,
    },
];

// The first of some options with a name.
fn first_named(options: &[NumberOption], name: &[u8]) -> Option<NumberOption>
    ensures { MatchOption result (All (λ option. name_of option ≢ name.now) options.now)
        (λ option. name_of option ≡ name.now) }
{
    options.iter().copied().find(|option| option.name() == name)
}

impl NumberOption {
    /// The option with a name, if one has it.
    pub fn named(name: &[u8]) -> Option<NumberOption>
        ensures { MatchOption result ((option : NumberOption) → name_of option ≢ name.now)
            (λ option. name_of option ≡ name.now) }
    {
        first_named(&NUMBER_OPTIONS, name)
    }

    /// Its name on the command line, without the dashes before it.
    pub fn name(self) -> &'static [u8]
        ensures { result.now ≡ name_of self }
    {
        match self {
            NumberOption::Workers => b"workers",
            NumberOption::Ticks => b"ticks",
            NumberOption::QueryTimeout => b"query-timeout",
            NumberOption::SkewTimeout => b"skew-timeout",
            NumberOption::Window => b"window",
            NumberOption::WindowBytes => b"window-bytes",
            NumberOption::BlockItems => b"block-items",
            NumberOption::BlockBytes => b"block-bytes",
            NumberOption::QrHints => b"qr-hints",
            NumberOption::SigHints => b"sig-hints",
            NumberOption::RrHints => b"rr-hints",
            NumberOption::OtherHints => b"other-hints",
            NumberOption::ClientPrefix4 => b"client-prefix4",
            NumberOption::ClientPrefix6 => b"client-prefix6",
            NumberOption::ServerPrefix4 => b"server-prefix4",
            NumberOption::ServerPrefix6 => b"server-prefix6",
            NumberOption::Port => b"port",
            NumberOption::MaxInput => b"max-input",
        }
    }

    /// The numbers from the least to the greatest one that it may say. `admits` tells which of them it may.
    pub fn range(self) -> Interval
        ensures { result ≡ option_range self }
    {
        let (least, most) = match self {
            NumberOption::Workers => (0, 64),
            NumberOption::Ticks => (1_000_000, 1_000_000_000),
            NumberOption::QueryTimeout => (0, 3_600_000),
            NumberOption::SkewTimeout => (0, 1_000_000),
            NumberOption::Window => (1, 1_048_576),
            NumberOption::WindowBytes => (16_777_216, 1_073_741_824),
            NumberOption::BlockItems => (1, 100_000),
            NumberOption::BlockBytes => (8_388_608, 67_108_864),
            NumberOption::QrHints => (0, 262_143),
            NumberOption::SigHints => (0, 131_071),
            NumberOption::RrHints => (0, 3),
            NumberOption::OtherHints => (0, 1),
            NumberOption::ClientPrefix4 | NumberOption::ServerPrefix4 => (1, 32),
            NumberOption::ClientPrefix6 | NumberOption::ServerPrefix6 => (1, 128),
            NumberOption::Port => (1, 65_535),
            NumberOption::MaxInput => (0, 281_474_976_710_656),
        };
        Interval { least, most }
    }

    /// What holds where the option is not given.
    pub fn default(self) -> u64
        ensures { result ≡ option_default self }
    {
        match self {
            NumberOption::Workers => 0,
            NumberOption::Ticks => 1_000_000,
            NumberOption::QueryTimeout => 5_000,
            NumberOption::SkewTimeout => 10,
            NumberOption::Window => 262_144,
            NumberOption::WindowBytes => 268_435_456,
            NumberOption::BlockItems => 10_000,
            NumberOption::BlockBytes => 33_554_432,
            NumberOption::QrHints => 261_119,
            NumberOption::SigHints => 131_063,
            NumberOption::RrHints => 3,
            NumberOption::OtherHints => 1,
            NumberOption::ClientPrefix4 | NumberOption::ServerPrefix4 => 32,
            NumberOption::ClientPrefix6 | NumberOption::ServerPrefix6 => 128,
            NumberOption::Port => 53,
            NumberOption::MaxInput => 281_474_976_710_656,
        }
    }

    // Whether it may say this number, if the number is in its range.
    #[tactic(auto, using(crate::proofs::HintBits::and_1024, crate::proofs::HintBits::and_8))]
    fn is_allowed(self, number: u64) -> bool
        ensures { IsTrue result ↔ IsAllowed self number }
    {
        match self {
            NumberOption::Ticks => number == 1_000_000 || number == 1_000_000_000,
            NumberOption::QrHints => number & u64::from(QR_PROCESSING_DATA) == 0,
            NumberOption::SigHints => number & u64::from(SIG_QR_TYPE) == 0,
            _ => true,
        }
    }

    /// Whether it may say this number: one of its range; of the ticks, 1,000,000 or 1,000,000,000; and of the hints,
    /// none with the bit of a field that is never kept.
    pub fn admits(self, number: u64) -> bool
        ensures { IsTrue result ↔ Admits self number }
    {
        self.range().holds(number) && self.is_allowed(number)
    }
}

impl ListOption {
    /// The option with a name, if one has it.
    pub fn named(name: &[u8]) -> Option<ListOption>
        ensures { MatchOption result ((option : ListOption) → list_name_of option ≢ name.now)
            (λ option. list_name_of option ≡ name.now) }
    {
        LIST_OPTIONS
            .iter()
            .copied()
            .find(|option| option.name() == name)
    }

    /// Its name on the command line, without the dashes before it.
    pub fn name(self) -> &'static [u8]
        ensures { result.now ≡ list_name_of self }
    {
        match self {
            ListOption::Opcodes => b"opcodes",
            ListOption::RrTypes => b"rr-types",
        }
    }

    /// The numbers that may stand in the list.
    pub fn range(self) -> Interval
        ensures { result ≡ list_range self }
    {
        match self {
            ListOption::Opcodes => Interval { least: 0, most: 15 },
            ListOption::RrTypes => Interval {
                least: 0,
                most: 65_535,
            },
        }
    }

    /// The parts of the list that holds where the option is not given.
    pub fn default(self) -> &'static [Interval]
        ensures { result.now ≡ list_default self }
    {
        match self {
            ListOption::Opcodes => &DEFAULT_OPCODES,
            ListOption::RrTypes => &DEFAULT_RR_TYPES,
        }
    }
}
