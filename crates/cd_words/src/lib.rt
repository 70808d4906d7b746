//! The words of the command line.
//!
//! - A *command line* is a command and its options: `compact --port 53 --opcodes 0,4-6`, `check --max-input 65536`,
//!   `inspect`, or `drill --count 5 --seed 7`. Each word is its bytes.
//! - An *option* is a name and a value after it, each a word. A value is a number or a list, as `cd_hints` says for the
//!   options of `compact`.
//! - A *list* is parts joined by commas, each a number or two numbers with a dash between them; it is the union of its
//!   parts.
//! - The *language* of what stands after a command is the options that words name, the values that they may say and
//!   what these change. `check` and `inspect` have one language.
//!
//! `read_words` gives the command, or the number of the first word that breaks a rule. In the words `compact --opcodes
//! 3-1` that is 2, since a part does not fall. Where a word is missing, it is the number of words.
#![tactic(auto)]

mod command;
mod command_line;
mod compact;
mod compact_option;
mod drill;
mod drill_option;
mod fault;
mod language;
pub mod laws;
mod number;
mod parts;
mod reading;
mod reading_option;
mod setting;

pub use command::{Command, read_words};
pub use drill::DrillSettings;
pub use fault::WordsFault;
