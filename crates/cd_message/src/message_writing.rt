//! Writes a whole message (RFC 1035 4.1).

ghost use Rattle.std.specs.Prelude.{◌≡◌, ◌≤◌, ◌<◌, ◌++◌, ◌^◌, length, All, IfOk, IfSome, OnOk};
ghost use Rattle.std.specs.Int.{w16, w32, to_be_bytes};
ghost use Rattle.cd_message.specs.Messages.{Spells};
ghost use Rattle.cd_message.specs.Valid.{Valid};
ghost use Rattle.cd_message.specs.Written;
ghost use Rattle.cd_message.specs.Written.{bytes_piece, each_in_turn, question_piece, record_piece, message_piece, header_of, written_if_fits};
ghost use Rattle.cd_message.specs.WrittenLaws.{QuestionNumbersFit, RecordNumbersFit, NumbersFit};
ghost use Rattle.cd_message.specs.Putting.{Puts, FewEntries};

use crate::message::{Message, Question, Rr};
use crate::writing::{WriteFault, Writing};
use cd_name::Blob;
use std::alloc::{AllocError, Global};

// The greatest number of entries of a section: their number has two bytes (RFC 1035 4.1.1).
const MAX_ENTRIES: usize = 65535;

impl Writing {
    // Appends a question.
    fn put_question(&mut self, question: &Question) -> Result<(), WriteFault>
        ensures puts { Puts (question_piece question.now) self.old self.new result }
        ensures fits { QuestionNumbersFit question.now }
    {
        let rtype = question.rtype;
        let rclass = question.rclass;
        self.put_name(question.name.as_slice())?;
        self.put_bytes(&question_numbers(rtype, rclass))
    }

    // Appends a record.
    fn put_record(&mut self, record: &Rr) -> Result<(), WriteFault>
        ensures puts { Puts (record_piece «record».now) self.old self.new result }
        ensures fits { RecordNumbersFit «record».now }
    {
        let rtype = record.rtype;
        let rclass = record.rclass;
        let ttl = record.ttl;
        self.put_name(record.owner.as_slice())?;
        self.put_bytes(&record_numbers(rtype, rclass, ttl))?;
        self.put_rdata_with_length(rtype, record.rdata.as_slice())
    }

    // Appends questions.
    fn put_questions(&mut self, questions: &[Question]) -> Result<(), WriteFault>
        requires { length self.old.bytes ≤ 65535 }
        ensures puts { Puts (each_in_turn question_piece questions.now) self.old self.new result }
        ensures fit { OnOk result (All QuestionNumbersFit questions.now) }
    {
        'questions: for question in questions {
            self.put_question(question)?;
        }
        Ok(())
    }

    // Appends the records of a section.
    fn put_records(&mut self, records: &[Rr]) -> Result<(), WriteFault>
        requires { length self.old.bytes ≤ 65535 }
        ensures puts { Puts (each_in_turn record_piece records.now) self.old self.new result }
        ensures fit { OnOk result (All RecordNumbersFit records.now) }
    {
        'records: for record in records {
            self.put_record(record)?;
        }
        Ok(())
    }

    // Appends a header.
    fn put_header(&mut self, message: &Message) -> Result<(), WriteFault>
        requires { FewEntries message.now }
        ensures puts { Puts (bytes_piece (header_of message.now)) self.old self.new result }
        ensures fit { (message.now.id < 2 ^ 16) × (message.now.bits < 2 ^ 16) }
    {
        let id = message.id;
        let bits = message.bits;
        let [id_high, id_low] = id.to_be_bytes();
        let [bits_high, bits_low] = bits.to_be_bytes();
        let [questions_high, questions_low] = count_bytes(message.questions.as_slice());
        let [answers_high, answers_low] = count_bytes(message.answers.as_slice());
        let [authority_high, authority_low] = count_bytes(message.authority.as_slice());
        let [additional_high, additional_low] = count_bytes(message.additional.as_slice());
        self.put_bytes(&[
            id_high,
            id_low,
            bits_high,
            bits_low,
            questions_high,
            questions_low,
            answers_high,
            answers_low,
            authority_high,
            authority_low,
            additional_high,
            additional_low,
        ])
    }

    // Appends a message.
    fn put_message(&mut self, message: &Message) -> Result<(), WriteFault>
        requires { FewEntries message.now }
        ensures puts { Puts (message_piece message.now) self.old self.new result }
        ensures fit { OnOk result (NumbersFit message.now) }
    {
        self.put_header(message)?;
        self.put_questions(message.questions.as_slice())?;
        self.put_records(message.answers.as_slice())?;
        self.put_records(message.authority.as_slice())?;
        self.put_records(message.additional.as_slice())
    }
}

// The type and class of a question.
fn question_numbers(rtype: u16, rclass: u16) -> [u8; 4]
    ensures { result ≡ to_be_bytes w16 rtype ++ to_be_bytes w16 rclass }
{
    let [type_high, type_low] = rtype.to_be_bytes();
    let [class_high, class_low] = rclass.to_be_bytes();
    [type_high, type_low, class_high, class_low]
}

// The type, class and TTL of a record.
fn record_numbers(rtype: u16, rclass: u16, ttl: u32) -> [u8; 8]
    ensures { result ≡ to_be_bytes w16 rtype ++ to_be_bytes w16 rclass ++ to_be_bytes w32 ttl }
{
    let [a, b, c, d] = question_numbers(rtype, rclass);
    let [e, f, g, h] = ttl.to_be_bytes();
    [a, b, c, d, e, f, g, h]
}

// The number of some items in two bytes.
fn count_bytes<T>(items: &[T]) -> [u8; 2]
    requires { length items.now ≤ 65535 }
    ensures { result ≡ to_be_bytes w16 (length items.now) }
{
    (items.len() as u16).to_be_bytes()
}

// Whether each section has at most 65,535 entries.
fn has_small_sections(message: &Message) -> bool
    ensures { result ≡ Written.has_small_sections message.now }
{
    message.questions.as_slice().len() <= MAX_ENTRIES
        && message.answers.as_slice().len() <= MAX_ENTRIES
        && message.authority.as_slice().len() <= MAX_ENTRIES
        && message.additional.as_slice().len() <= MAX_ENTRIES
}

/// Writes a message (RFC 1035 4.1): a header with the counts of its sections, and the sections. A name is written as
/// the labels before the longest of its suffixes that was written before, and a pointer to that (RFC 1035 4.1.4);
/// names in RDATA take part where RFC 1035 defines the type and the RDATA fills its shape (RFC 3597 section 4).
/// `None` where a section has more than 65,535 entries or the message more than 65,535 bytes. What is written for a
/// valid message is read by `parse` as the message, to its last byte. The only error is want of memory.
pub fn write(alloc: Global, message: &Message) -> Result<Option<Blob>, AllocError>
    ensures exact { IfOk result (λ w. w ≡ written_if_fits message.now) }
    ensures read { Valid message.now →
        IfOk result (λ w. IfSome w (λ bytes. Spells bytes message.now (length bytes))) }
{
    if !has_small_sections(message) {
        return Ok(None);
    }
    let mut writing = Writing::new(alloc);
    match writing.put_message(message) {
        Ok(()) => {
            let Writing { bytes, names: _ } = writing;
            Ok(Some(bytes))
        }
        Err(WriteFault::TooLong) => Ok(None),
        Err(WriteFault::NoMemory) => Err(AllocError),
    }
}
