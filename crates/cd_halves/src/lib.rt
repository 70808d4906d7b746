//! What is kept of a message is rebuilt to the message: a law on what the crates below define, with no code of its own.
//!
//! - A *half* of a record is its query or its response.
//! - A half is *plain* where all of it is kept: every supported hint is set, the type of each resource record is listed,
//!   the OPT record of a query is the last additional record and the bits after DO are 0, and the first question of a
//!   response is the lead question of its record.
//!
//! Example: with the default settings, a query for www.example.com with an OPT record is rebuilt to the same message.
#![tactic(auto)]

pub mod laws;
