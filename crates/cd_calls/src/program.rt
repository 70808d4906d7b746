//! Runs over memory: what each answers, and what it writes.

mod captures;
mod faults;
mod many;
mod report;
pub mod sample;
