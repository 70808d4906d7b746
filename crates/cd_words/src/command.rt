//! The command that the words say.

ghost use Rattle.std.specs.Prelude.{IfOk, IfErr};
ghost use Rattle.cd_words.specs.Commands.{SaysCommand, HasFault, HasValidSettings};

use crate::command_line::{begins_with, read_options};
use crate::compact_option::CompactOption;
use crate::drill::DrillSettings;
use crate::drill_option::DrillOption;
use crate::fault::WordsFault;
use crate::reading_option::ReadingOption;
use cd_hints::Settings;
use cd_name::Blob;
use std::alloc::Global;

/// What the program is to do.
#[derive(Debug, Drop)]
pub enum Command {
    /// To compact a capture into a C-DNS file.
    Compact(Settings),
    /// To check a C-DNS file, of which at most so many bytes are read.
    Check { max_input: u64 },
    /// To inspect a C-DNS file, of which at most so many bytes are read: its packets are built again.
    Inspect { max_input: u64 },
    /// To drill: a capture that is made from a seed is compacted, and the file of it is inspected.
    Drill(DrillSettings),
}

/// The command that the words say, by the language of `docs/FORMATS.md`.
pub fn read_words(alloc: Global, words: &[Blob]) -> Result<Command, WordsFault>
    ensures command { IfOk result (SaysCommand words.now) }
    ensures fault { IfErr result (HasFault words.now) }
    ensures valid { IfOk result HasValidSettings }
{
    if begins_with(words, b"compact") {
        let settings = read_options::<CompactOption>(alloc, words)?;
        return Ok(Command::Compact(settings));
    }
    if begins_with(words, b"check") {
        let max_input = read_options::<ReadingOption>(alloc, words)?;
        return Ok(Command::Check { max_input });
    }
    if begins_with(words, b"inspect") {
        let max_input = read_options::<ReadingOption>(alloc, words)?;
        return Ok(Command::Inspect { max_input });
    }
    if begins_with(words, b"drill") {
        let settings = read_options::<DrillOption>(alloc, words)?;
        return Ok(Command::Drill(settings));
    }
    Err(WordsFault::Usage { place: 0 })
}
