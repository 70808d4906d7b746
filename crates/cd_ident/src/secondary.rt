//! The secondary of an event.

ghost use Rattle.std.specs.Prelude.{◌≡◌, ◌++◌, map, IfOk, OnOk};
ghost use Rattle.std.specs.Int.{w16, to_be_bytes};
ghost use Rattle.cd_name.specs.Names.{lower_case};
ghost use Rattle.cd_ident.specs.Identifiers.{secondary_of};

use cd_message::Question;
use cd_name::Blob;
use std::alloc::{AllocError, Global};

// The number of bytes of a type and a class.
const TYPE_AND_CLASS: usize = 4;

// Adds some bytes in lower case after others.
fn push_folded(bytes: &mut Vec<u8>, name: &[u8]) -> Result<(), AllocError>
    ensures { OnOk result (bytes.new.items ≡ bytes.old.items ++ map lower_case name.now) }
{
    bytes.extend(name.iter().map(|byte| byte.to_ascii_lowercase()))
}

// The name of a question in lower case, its type and its class.
fn folded(alloc: Global, question: &Question) -> Result<Blob, AllocError>
    ensures { IfOk result (λ bytes. bytes ≡ map lower_case question.now.name
        ++ to_be_bytes w16 question.now.rtype ++ to_be_bytes w16 question.now.rclass) }
{
    let name = question.name.as_slice();
    let mut bytes = Vec::with_capacity(alloc, name.len() + TYPE_AND_CLASS)?;
    push_folded(&mut bytes, name)?;
    bytes.extend_from_slice(&question.rtype.to_be_bytes())?;
    bytes.extend_from_slice(&question.rclass.to_be_bytes())?;
    Ok(Blob::from_vec(bytes))
}

// The secondary of some questions: the first in lower case, if there is one.
pub(crate) fn secondary_of(
    alloc: Global,
    questions: &[Question],
) -> Result<Option<Blob>, AllocError>
    ensures { IfOk result (λ secondary. secondary ≡ secondary_of questions.now) }
{
    match questions {
        [] => Ok(None),
        [first, ..] => {
            let bytes = folded(alloc, first)?;
            Ok(Some(bytes))
        }
    }
}
