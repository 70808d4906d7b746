//! The call that does all that the program does: `run_plain`.
//!
//! - A *run* takes the words of the command line, which say a command, reads from a source, writes to a sink, and
//!   answers a `Status`. By `compact` it reads a capture and writes its C-DNS file; by `check` it reads a C-DNS file and
//!   writes nothing; by `inspect` it reads a C-DNS file and writes a capture of the packets that are rebuilt of it.
//! - A *drill* reads nothing. It makes a workload, compacts it, inspects the file, and writes a summary of that.
//! - The *report* is a second sink. It gets a line where the words are no command line; else it gets a line for each
//!   count and one that says how the run ended.
//!
//! The way of the data: `cd_words` reads the words, and `cd_engine` compacts the capture under the settings that they
//! say, or checks the file, or inspects it; `drilling` compacts and inspects in memory. How that ended is the status of
//! the run (`status`), and what the report says is in `report` and `reason`.
//!
//! Example: of the words `compact --opcodes 0 --rr-types 1` and a capture of a query and its response 20 ms later, the
//! file holds one block with one item, whose response delay is 20,000 ticks of a microsecond, the report has `packets 2`,
//! `pairs 1` and `status done` among its lines, and the answer is `Done`.
//! Of the word `check` and this file the report is `blocks 1`, `items 1`, `malformed 0` and `status done`. Of the words
//! `compact --opcodes 3-1` the report is `usage 2`, and the answer is `Usage`.
#![tactic(auto)]

mod drilling;
mod reason;
mod report;
mod run;
mod status;

pub use run::run_plain;
pub use status::{Status, exit_code};
