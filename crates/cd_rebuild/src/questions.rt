//! The questions of a message (RFC 1035 4.1.2).

ghost use Rattle.std.specs.Prelude.{◌≡◌, [], ◌∷◌, IfOk, unwrap_or, if◌then◌else◌};
ghost use Rattle.cd_rebuild.specs.Flags.{has_flag};
ghost use Rattle.cd_rebuild.specs.Messages;

use crate::flags::has_flag;
use cd_block::{KeptItem, KeptQuestion, KeptSig};
use cd_message::Question;
use cd_name::{List, Name};
use std::alloc::{AllocError, Global};

// A copy of a name. An `Err` is for want of memory.
pub(crate) fn copy_name(alloc: Global, name: &Name) -> Result<Name, AllocError>
    ensures { IfOk result (λ copy. copy ≡ name.now) }
{
    Name::from_slice(alloc, name.as_slice())
}

// A copy of a name, or the root where there is none. An `Err` is for want of memory.
#[tactic(auto, using(crate::proofs::Roots::root_is_name))]
fn name_or_root(alloc: Global, name: &Option<Name>) -> Result<Name, AllocError>
    ensures { IfOk result (λ copy. copy ≡ unwrap_or name.now (0 ∷ [])) }
{
    match name {
        Some(name) => copy_name(alloc, name),
        None => Name::from_slice(alloc, &[0]),
    }
}

// The lead question of an item with this signature. An `Err` is for want of memory.
fn lead_question(
    alloc: Global,
    item: &KeptItem,
    signature: &KeptSig,
) -> Result<Question, AllocError>
    ensures { IfOk result (λ question. question ≡ Messages.lead_question item.now signature.now) }
{
    let (rtype, rclass) = signature.classtype.unwrap_or((1, 1));
    let name = name_or_root(alloc, &item.query_name)?;
    Ok(Question {
        name,
        rtype,
        rclass,
    })
}

// The lead question alone, and none where the half's flag says that it has none. An `Err` is for want of memory.
fn lead_alone(
    alloc: Global,
    has_none: u8,
    item: &KeptItem,
    signature: &KeptSig,
) -> Result<Vec<Question>, AllocError>
    ensures { IfOk result (λ list. list.items ≡
        (if has_flag signature.now has_none then [] else Messages.lead_question item.now signature.now ∷ [])) }
{
    let mut list = Vec::new(alloc);
    if has_flag(signature, has_none) {
        return Ok(list);
    }
    let question = lead_question(alloc, item, signature)?;
    list.push(question)?;
    Ok(list)
}

// A further question. An `Err` is for want of memory.
fn question_of(alloc: Global, question: &KeptQuestion) -> Result<Question, AllocError>
    ensures { IfOk result (λ copy. copy ≡ Messages.question_of question.now) }
{
    let rtype = question.rtype;
    let rclass = question.rclass;
    let name = copy_name(alloc, &question.name)?;
    Ok(Question {
        name,
        rtype,
        rclass,
    })
}

// The questions of a half: the lead question, unless the half's flag says that it has none, and the further ones. An `Err` is
// for want of memory.
pub(crate) fn questions(
    alloc: Global,
    has_none: u8,
    item: &KeptItem,
    signature: &KeptSig,
    further: &[KeptQuestion],
) -> Result<List<Question>, AllocError>
    ensures { IfOk result (λ list. list ≡ Messages.questions has_none item.now signature.now further.now) }
{
    let mut list = lead_alone(alloc, has_none, item, signature)?;
    'further: for question in further {
        list.push(question_of(alloc, question)?)?;
    }
    Ok(List::from_vec(list))
}
