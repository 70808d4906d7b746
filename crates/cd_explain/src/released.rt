//! Records of a capture, as they are released while its events come.

ghost use Rattle.std.specs.Prelude.{◌≡◌, ◌≤◌, ◌<◌, ◌^◌, false};
ghost use Rattle.cd_hints.specs.Validity.{IsValid};

use crate::events::{Events, windows_of, word_of};
use crate::text::put_time;
use cd_hints::Settings;
use cd_ident::Event;
use cd_pairing::Windows;
use cd_window::{Released, Window};
use std::alloc::{AllocError, Global};
use std::fmt::Write;

const MOST_WEIGHT: u64 = 9_000_000_000_000_000_000;

/// Pairs events as they come.
#[derive(Drop)]
pub struct Matcher {
    window: Window<Event>,
    weight: u64,
    ghost going: { window.finished ≡ false },
    ghost weighed: { window.weight_sum ≡ weight },
}

impl Matcher {
    /// No event yet.
    pub fn new(alloc: Global, windows: Windows) -> Result<Matcher, AllocError>
        requires some { 1 ≤ windows.count }
        requires few { windows.count < 2 ^ 31 }
    {
        let window = Window::new(alloc, windows)?;
        Ok(Matcher { window, weight: 0 })
    }

    // One more. Events that together weigh more than memory holds are want of memory.
    fn push(&mut self, event: Event) -> Result<(), AllocError> {
        let Some(weight) = self.weight.checked_add(event.weight) else {
            return Err(AllocError);
        };
        if weight > MOST_WEIGHT || self.window.ready() {
            return Err(AllocError);
        }
        match self.window.push(event) {
            Ok(()) => {
                self.weight = weight;
                Ok(())
            }
            Err(_) => Err(AllocError),
        }
    }

    // The records that are released by now.
    fn put_ready(&mut self, text: &mut String) -> Result<(), AllocError> {
        for _ in 0..self.window.held() {
            match self.window.pop() {
                Some(released) => put_record(text, &released)?,
                None => return Ok(()),
            }
        }
        Ok(())
    }

    // All records that are left, where no event comes any more.
    fn put_rest(self, text: &mut String) -> Result<(), AllocError> {
        let Matcher { mut window, .. } = self;
        window.finish();
        for _ in 0..window.held() {
            match window.pop() {
                Some(released) => put_record(text, &released)?,
                None => return Ok(()),
            }
        }
        Ok(())
    }
}

// A record, by the position of its first event.
fn put_record(text: &mut String, released: &Released<Event>) -> Result<(), AllocError> {
    match released {
        Released::Pair {
            lead,
            query,
            response,
        } => {
            write!(text, "record {lead} query-response time ")?;
            put_time(text, query.time)?;
            text.push_str(" response ")?;
            put_time(text, response.time)?;
        }
        Released::One { lead, event } => {
            write!(text, "record {lead} {} time ", word_of(event.kind))?;
            put_time(text, event.time)?;
        }
    }
    text.push('\n')
}

/// Each event as it comes, and behind it the records that it releases; and then the records that are left.
pub fn put_released(
    alloc: Global,
    text: &mut String,
    settings: &Settings,
    events: Events,
) -> Result<(), AllocError>
    requires { IsValid settings.now }
{
    let mut matcher = Matcher::new(alloc, windows_of(settings))?;
    for (index, event) in events.into_vec().into_iter().enumerate() {
        writeln!(text, "event {index}")?;
        matcher.push(event)?;
        matcher.put_ready(text)?;
    }
    text.push_str("end of events\n")?;
    matcher.put_rest(text)
}
