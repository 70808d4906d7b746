//! What is kept of a record.

mod address_prefix;
mod copies;
mod dropping;
mod flags;
mod hint;
mod item;
mod keeper;
mod lists;
mod malformed;
mod signature;
mod stored_address;
mod ticks;

pub use address_prefix::prefix;
pub use dropping::{dropped, dropped_by};
pub use item::{bare_item, keeps_signatures, kept_item, kept_query_name, lead_question};
pub use keeper::Keeper;
pub use lists::{hinted_records, is_kept, kept_rdata, kept_ttl, later_questions};
pub use malformed::kept_malformed;
pub use signature::{bare_signature, kept_classtype, kept_options};
pub use stored_address::{StoredAddress, kept_client_address, kept_server_address};
pub use ticks::tick_of;
