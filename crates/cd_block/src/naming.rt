//! That the names of a kept block are names, which their type keeps: each is looked at, and nothing is done with it.

ghost use Rattle.std.specs.Prelude.{IfSome};
ghost use Rattle.std.specs.List.{AllByRecursion};
ghost use Rattle.cd_name.specs.Names.{IsName};
ghost use Rattle.cd_block.specs.Naming.{QuestionsNamed, RecordsNamed, ListsNamed, ItemNamed, BlockNamed};

use crate::kept::{KeptBlock, KeptItem, KeptLists, KeptQuestion, KeptRr};
use cd_name::Name;

// The names of questions are names.
fn questions_named(questions: &[KeptQuestion])
    ensures { QuestionsNamed questions.now }
{
    'each: for question in questions {
        let _name = question.name.as_slice();
    }
}

// The names of resource records are names.
fn records_named(records: &[KeptRr])
    ensures { RecordsNamed records.now }
{
    'each: for one in records {
        let _name = one.name.as_slice();
    }
}

// The names of an extended part are names.
fn lists_named(lists: &KeptLists)
    ensures { ListsNamed lists.now }
{
    questions_named(lists.question.as_slice());
    records_named(lists.answer.as_slice());
    records_named(lists.authority.as_slice());
    records_named(lists.additional.as_slice());
}

// A name that may be absent is a name.
fn lead_named(name: &Option<Name>)
    ensures { IfSome name.now IsName }
{
    match name {
        None => {}
        Some(lead) => {
            let _name = lead.as_slice();
        }
    }
}

// The names of an item are names.
fn item_named(item: &KeptItem)
    ensures { ItemNamed item.now }
{
    lead_named(&item.query_name);
    lists_named(&item.query_extended);
    lists_named(&item.response_extended);
}

// The names of items are names.
fn items_named(items: &[KeptItem])
    ensures { AllByRecursion ItemNamed items.now }
{
    'each: for item in items {
        item_named(item);
    }
}

/// The names of a kept block are names (RFC 1035 3.1). It looks at each and changes nothing: a contract sees a `Name`
/// as its bytes, and this says of all of them what `Name` keeps.
pub fn names_are_names(kept: &KeptBlock)
    ensures { BlockNamed kept.now }
{
    items_named(kept.items.as_slice());
}
