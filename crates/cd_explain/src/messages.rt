//! Messages, field by field, and how they are written.

ghost use Rattle.cd_message.specs.Valid.{Valid};

use crate::names::put_name;
use crate::text::{put_bytes, put_hex, yes_or_no};
use cd_edns::{Opt, full_rcode, opt_of};
use cd_message::{Message, MsgWhy, ParseFault, Parsed, Question, Rr, parse, weight, write};
use cd_name::List;
use std::alloc::{AllocError, Global};
use std::fmt::Write;

fn rule_of_messages(why: MsgWhy) -> &'static str {
    match why {
        MsgWhy::Short => "short",
        MsgWhy::Label => "label",
        MsgWhy::Pointer => "pointer",
        MsgWhy::LongName => "long-name",
        MsgWhy::Shape => "shape",
        MsgWhy::Opt => "opt",
    }
}

// The second word of a header, bit by bit (RFC 1035 4.1.1, RFC 4035 3.1.6).
fn put_header_bits(text: &mut String, indent: &str, bits: u16) -> Result<(), AllocError> {
    write!(text, "{indent}qr {} opcode {}", bits >> 15, bits >> 11 & 15)?;
    write!(
        text,
        " aa {} tc {} rd {}",
        bits >> 10 & 1,
        bits >> 9 & 1,
        bits >> 8 & 1
    )?;
    write!(
        text,
        " ra {} z {} ad {}",
        bits >> 7 & 1,
        bits >> 6 & 1,
        bits >> 5 & 1
    )?;
    writeln!(text, " cd {} rcode {}", bits >> 4 & 1, bits & 15)
}

fn put_question(text: &mut String, indent: &str, question: &Question) -> Result<(), AllocError> {
    write!(text, "{indent}question ")?;
    put_name(text, question.name.as_slice())?;
    writeln!(text, " type {} class {}", question.rtype, question.rclass)
}

fn put_records(
    text: &mut String,
    indent: &str,
    section: &str,
    records: &[Rr],
) -> Result<(), AllocError> {
    for rr in records {
        write!(text, "{indent}{section} ")?;
        put_name(text, rr.owner.as_slice())?;
        write!(
            text,
            " type {} class {} ttl {} rdata ",
            rr.rtype, rr.rclass, rr.ttl
        )?;
        put_hex(text, rr.rdata.as_slice())?;
        text.push('\n')?;
    }
    Ok(())
}

/// The fields of a message, each line after an indent.
pub fn put_message(text: &mut String, indent: &str, message: &Message) -> Result<(), AllocError> {
    writeln!(text, "{indent}id {}", message.id)?;
    put_header_bits(text, indent, message.bits)?;
    for question in message.questions.as_slice() {
        put_question(text, indent, question)?;
    }
    put_records(text, indent, "answer", message.answers.as_slice())?;
    put_records(text, indent, "authority", message.authority.as_slice())?;
    put_records(text, indent, "additional", message.additional.as_slice())
}

fn put_opt_fields(text: &mut String, opt: &Opt) -> Result<(), AllocError> {
    write!(
        text,
        "opt udp-size {} extended-rcode {}",
        opt.udp_size, opt.ext_rcode
    )?;
    write!(
        text,
        " version {} do {} rdata ",
        opt.version,
        yes_or_no(opt.dnssec_ok)
    )?;
    put_hex(text, opt.rdata.as_slice())?;
    text.push('\n')
}

// How a message is written.
fn put_written(alloc: Global, text: &mut String, message: &Message) -> Result<(), AllocError> {
    match write(alloc, message)? {
        Some(bytes) => put_bytes(text, "written", bytes.as_slice()),
        None => text.push_str("written too-long\n"),
    }
}

// What a valid message says with its OPT record, and what it weighs.
fn put_meaning(alloc: Global, text: &mut String, message: &Message) -> Result<(), AllocError>
    requires { Valid message.now }
{
    if let Some(opt) = opt_of(alloc, message)? {
        put_opt_fields(text, &opt)?;
    }
    writeln!(text, "full-rcode {}", full_rcode(message))?;
    writeln!(text, "weight {}", weight(message))
}

// The message with another type for its answers, whose RDATA may then be out of shape.
fn with_answer_type(message: Message, rtype: u16) -> Message {
    let mut answers = message.answers.into_vec();
    for answer in &mut answers {
        answer.rtype = rtype;
    }
    Message {
        id: message.id,
        bits: message.bits,
        questions: message.questions,
        answers: List::from_vec(answers),
        authority: message.authority,
        additional: message.additional,
    }
}

/// What a payload is as a message: its fields, or the first rule that it breaks; and how the message is written, with
/// another type for its answers where one is given.
pub fn explain_message(
    alloc: Global,
    text: &mut String,
    payload: &[u8],
    answer_type: Option<u16>,
) -> Result<(), AllocError> {
    match parse(alloc, payload) {
        Ok(parsed) => {
            let Parsed { message, used } = parsed;
            writeln!(text, "size {used}")?;
            put_message(text, "", &message)?;
            put_meaning(alloc, text, &message)?;
            match answer_type {
                Some(rtype) => put_written(alloc, text, &with_answer_type(message, rtype)),
                None => put_written(alloc, text, &message),
            }
        }
        Err(ParseFault::Malformed(why)) => writeln!(text, "malformed {}", rule_of_messages(why)),
        Err(ParseFault::NoMemory) => Err(AllocError),
    }
}
