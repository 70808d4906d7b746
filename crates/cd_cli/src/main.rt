//! Reads the standard input and writes the standard output, by the command of the command line: a capture is compacted
//! into its C-DNS file, or a C-DNS file is checked. The report goes to the standard error.
//!
//! The words of the command line, the report and the exit status are those of `cd_top`. Where no memory is found for
//! the words it writes nothing and ends with 6; where a word is not UTF-8 text it writes nothing and ends with 10.
#![tactic(auto)]

use cd_name::Blob;
use cd_ports::{StdSink, StdSource};
use cd_top::{Status, exit_code, run_plain};
use std::env;
use std::io::ErrorKind;
use std::process::ExitCode;

// The exit status where a word is not UTF-8 text.
const NO_TEXT: u8 = 10;

// Why there are no words.
enum NoWords {
    NoMemory,
    // A word is not UTF-8 text.
    NoText,
}

// The words of the command line without the program's name.
fn words_of(rt: &HostRuntime) -> Result<Vec<Blob>, NoWords> {
    let args = match env::args(rt) {
        Ok(args) => args,
        Err(error) => {
            return Err(match error.kind() {
                ErrorKind::OutOfMemory => NoWords::NoMemory,
                _ => NoWords::NoText,
            });
        }
    };
    let mut words = Vec::new(rt.alloc());
    for arg in args.skip(1) {
        if words.push(Blob::from_vec(arg.into_bytes())).is_err() {
            return Err(NoWords::NoMemory);
        }
    }
    Ok(words)
}

// Runs over the standard streams, and gives the exit status.
fn run_words(rt: &HostRuntime, words: &[Blob]) -> u8 {
    let mut src = StdSource::new(rt.stdin());
    let mut out = StdSink::new(rt.stdout());
    let mut report = StdSink::new(rt.stderr());
    exit_code(&run_plain(rt.alloc(), words, &mut src, &mut out, &mut report))
}

fn main(rt: HostRuntime) -> ExitCode {
    ExitCode::from(match words_of(&rt) {
        Err(NoWords::NoMemory) => exit_code(&Status::NoMemory),
        Err(NoWords::NoText) => NO_TEXT,
        Ok(words) => run_words(&rt, &words),
    })
}
