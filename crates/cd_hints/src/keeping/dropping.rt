//! The resource records of messages that are dropped for their type.

ghost use Rattle.std.specs.Prelude.{◌≡◌, ◌≤◌, ◌*◌, length, if◌then◌else◌};
ghost use Rattle.std.specs.Option.{ForSome, option_copied, option_map_or};
ghost use Rattle.cd_message.specs.Valid.{Valid};
ghost use Rattle.cd_hints.specs.Lists;
ghost use Rattle.cd_hints.specs.Records.{record_parts};

use crate::keeping::keeper::Keeper;
use crate::record::Rec;
use crate::settings::Settings;
use cd_message::{Message, OPT, Rr};

// How many records have a type that is not listed.
fn unlisted_count(keeper: &Keeper, records: &[Rr]) -> u64
    ensures exact { result ≡ Lists.unlisted_count keeper.now.rr_types records.now }
    ensures bound { result ≤ length records.now }
{
    let unlisted = records.iter().filter(|record| !keeper.lists(record.rtype));
    unlisted.count() as u64
}

// How many records that are no OPT records have a type that is not listed.
fn unlisted_count_without_opt(keeper: &Keeper, records: &[Rr]) -> u64
    ensures exact { result ≡ Lists.unlisted_count keeper.now.rr_types (Lists.without_opt records.now) }
    ensures bound { result ≤ length records.now }
{
    let unlisted = records
        .iter()
        .filter(|record| record.rtype != OPT)
        .filter(|record| !keeper.lists(record.rtype));
    unlisted.count() as u64
}

// The records of a query's message that are dropped. Its OPT record is none of them.
fn query_dropped(keeper: &Keeper, query: &Message) -> u64
    requires { Valid query.now }
    ensures exact { result ≡ Lists.query_dropped keeper.now.rr_types query.now }
    ensures bound { result ≤ 3 * 65535 }
{
    unlisted_count(keeper, query.answers.as_slice())
        + unlisted_count(keeper, query.authority.as_slice())
        + unlisted_count_without_opt(keeper, query.additional.as_slice())
}

// The records of a response's message that are dropped.
fn response_dropped(keeper: &Keeper, response: &Message) -> u64
    requires { Valid response.now }
    ensures exact { result ≡ Lists.response_dropped keeper.now.rr_types response.now }
    ensures bound { result ≤ 3 * 65535 }
{
    unlisted_count(keeper, response.answers.as_slice())
        + unlisted_count(keeper, response.authority.as_slice())
        + unlisted_count(keeper, response.additional.as_slice())
}

// The records of a message that are dropped, where there is one: of a query or of a response.
fn dropped_of(keeper: &Keeper, of_query: bool, message: Option<&Message>) -> u64
    requires { ForSome message (λ m. Valid m.now) }
    ensures exact { result ≡ option_map_or
        (if of_query then Lists.query_dropped keeper.now.rr_types else Lists.response_dropped keeper.now.rr_types)
        (option_copied message.entry) 0 }
    ensures bound { result ≤ 3 * 65535 }
{
    match message {
        Some(query) if of_query => query_dropped(keeper, query),
        Some(response) => response_dropped(keeper, response),
        None => 0,
    }
}

/// How many resource records in the messages of a record have a type that is not listed, whatever the hints are. The
/// OPT record of a query is not counted. 0 for a malformed message, and for one whose opcode is not listed.
pub fn dropped_by(keeper: &Keeper, rec: &Rec) -> u64
    ensures { result ≡ Lists.dropped keeper.now.rr_types (record_parts rec.now) }
{
    dropped_of(keeper, true, rec.query_message())
        + dropped_of(keeper, false, rec.response_message())
}

/// The same under these settings, valid or not. Whether their types ascend is looked up at each call; where they do, a
/// resource record costs a binary search among them.
pub fn dropped(settings: &Settings, rec: &Rec) -> u64
    ensures { result ≡ Lists.dropped settings.now.params.rr_types (record_parts rec.now) }
{
    let keeper = Keeper::new(&settings.params);
    dropped_by(&keeper, rec)
}
