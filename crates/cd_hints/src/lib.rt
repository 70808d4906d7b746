//! The settings of a compaction, and what is kept of a record under them (RFC 8618 7.3.1.1, 7.3.2).
//!
//! - *Settings* are the parameters of the file, `Params`, and the limits of the run. `default_settings` gives those
//!   that hold where no option is given, and `valid` tells whether each number may stand there.
//! - An *option* is a name of the command line and what it may say: a number (`NumberOption`) or a list (`ListOption`).
//!   Each has a name, an interval and a default.
//! - A *list* is written as its parts, each an `Interval`: `0-6` holds the numbers from 0 to 6.
//! - A *prefix* is the first bits of an address, with the bits after them 0.
//! - A *record* (`Rec`) is a query with its response, or an event that stands alone.
//! - An *item* is what is kept of a pair, a query or a response (`kept_item`): each field where its *hint* is set and
//!   it has a value. A malformed message is kept whole (`kept_malformed`). Resource records of types that are not
//!   listed are *dropped*.
//! - A *bare* item or signature has only what does not stand in the tables of a block. The values that do are lent from
//!   the record (`kept_query_name` and its like), so that a table copies only what is new there.
//!
//! Example: with the defaults, a query for www.example.com of type A that is answered after 20 ms is an item with the
//! name www.example.com, a response delay of 20,000 ticks of a microsecond, and a signature with the type and the
//! class.
#![tactic(auto)]

mod keeping;
pub mod laws;
mod record;
mod settings;

pub use keeping::{
    Keeper, StoredAddress, bare_item, bare_signature, dropped, dropped_by, hinted_records, is_kept,
    keeps_signatures, kept_classtype, kept_client_address, kept_item, kept_malformed, kept_options,
    kept_query_name, kept_rdata, kept_server_address, kept_ttl, later_questions, lead_question,
    prefix, tick_of,
};
pub use record::Rec;
pub use settings::{
    Interval, ListOption, NumberOption, Settings, default_settings, opcodes_of, types_of, valid,
};
