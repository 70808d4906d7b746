use cd_message::{Message, Question, parse, write};
use cd_name::{List, read_name};
use std::alloc::{AllocError, Global};

// A response of so many answers, with a question for the name a.
const FRONT: &[u8] = b"\0\x07\x81\x80\0\x01\x13\x88\0\0\0\0\x01a\0\0\x01\0\x01";

const ANSWERS: u64 = 5_000;

// An empty answer, whose owner points to the question's name.
const ANSWER: &[u8] = b"\xc0\x0c\0\x01\0\x01\0\0\0\0\0\0";

// A front, and then an item so many times.
fn repeated(alloc: Global, front: &[u8], item: &[u8], count: u64) -> Result<Vec<u8>, AllocError> {
    let mut bytes = Vec::from_slice(alloc, front)?;
    for _ in 0..count {
        bytes.extend_from_slice(item)?;
    }
    Ok(bytes)
}

#[test]
fn a_message_of_thousands_of_answers(rt: HostRuntime) -> Result<(), AllocError> {
    let payload = repeated(rt.alloc(), FRONT, ANSWER, ANSWERS)?;
    let Ok(parsed) = parse(rt.alloc(), &payload) else {
        return Err(AllocError);
    };
    assert_eq!(rt; parsed.used, payload.len());
    assert_eq!(rt; parsed.message.answers.as_slice().len(), 5_000);
    match write(rt.alloc(), &parsed.message)? {
        Some(written) => assert!(rt; written.as_slice() == payload.as_slice()),
        None => assert!(rt; false),
    }
    Ok(())
}

// A question for the root.
fn question(alloc: Global) -> Result<Question, AllocError> {
    match read_name(alloc, b"\0", 0) {
        Ok((name, _next)) => Ok(Question {
            name,
            rtype: 1,
            rclass: 1,
        }),
        Err(_) => Err(AllocError),
    }
}

// A message of so many questions and no record.
fn message_of_questions(alloc: Global, count: u64) -> Result<Message, AllocError> {
    let mut questions = Vec::new(alloc);
    for _ in 0..count {
        questions.push(question(alloc)?)?;
    }
    Ok(Message {
        id: 0,
        bits: 0,
        questions: List::from_vec(questions),
        answers: List::from_vec(Vec::new(alloc)),
        authority: List::from_vec(Vec::new(alloc)),
        additional: List::from_vec(Vec::new(alloc)),
    })
}

// A section has at most 65,535 entries.
#[test]
fn too_many_questions_are_not_written(rt: HostRuntime) -> Result<(), AllocError> {
    let message = message_of_questions(rt.alloc(), 65_536)?;
    let written = write(rt.alloc(), &message)?;
    assert!(rt; written.is_none());
    Ok(())
}
