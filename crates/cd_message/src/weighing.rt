//! Weighs messages.

ghost use Rattle.std.specs.Prelude.{◌≡◌, ◌≤◌, ◌*◌, length};
ghost use Rattle.std.specs.List.{sum_by, All};
ghost use Rattle.cd_message.specs.Valid.{Valid, ValidRecord};
ghost use Rattle.cd_message.specs.Weights.{question_weight, record_weight, weight_of};

use crate::message::{Message, Question, Rr};

// The weight of some questions.
fn questions_weight(questions: &[Question]) -> u64
    requires { length questions.now ≤ 65535 }
    ensures exact { result ≡ sum_by question_weight questions.now }
    ensures bound { result ≤ 65535 * 303 }
{
    let mut total = 0;
    'questions: for question in questions {
        total += question.name.as_slice().len() as u64 + 48;
    }
    total
}

// The weight of some records.
fn records_weight(records: &[Rr]) -> u64
    requires few { length records.now ≤ 65535 }
    requires valid { All ValidRecord records.now }
    ensures exact { result ≡ sum_by record_weight records.now }
    ensures bound { result ≤ 65535 * 65854 }
{
    let mut total = 0;
    'records: for record in records {
        let owner = record.owner.as_slice().len() as u64;
        let rdata = record.rdata.as_slice().len() as u64;
        total += owner + rdata + 64;
    }
    total
}

/// What a message weighs, where messages are held back: 256, for each question 48 and its name, and for each record
/// 64, its owner and its RDATA, in bytes.
pub fn weight(message: &Message) -> u64
    requires { Valid message.now }
    ensures { result ≡ weight_of message.now }
{
    256 + questions_weight(message.questions.as_slice())
        + records_weight(message.answers.as_slice())
        + records_weight(message.authority.as_slice())
        + records_weight(message.additional.as_slice())
}
