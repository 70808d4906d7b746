//! The reasons of a refusal, as a report names them.

ghost use Rattle.std.specs.Prelude.{◌≡◌, Some};
ghost use Rattle.cd_top.specs.Reports.{capture_why_text, file_why_text};

use cd_file::FileWhy;
use cd_packet::CaptureWhy;
use std::fmt;

/// Why a capture is refused.
#[derive(Clone, Copy)]
pub(crate) struct CaptureReason(pub(crate) CaptureWhy);

/// Why a file is refused.
#[derive(Clone, Copy)]
pub(crate) struct FileReason(pub(crate) FileWhy);

/// Writes the reason in lower case, with a dash between words.
impl fmt::Display for CaptureReason {
    ghost output = { λ reason. Some (capture_why_text reason.0) };

    fn fmt<W: fmt::Write>(&self, f: &mut fmt::Formatter<W>) -> fmt::Result {
        match self.0 {
            CaptureWhy::Magic => f.write_str("magic"),
            CaptureWhy::Version => f.write_str("version"),
            CaptureWhy::Record => f.write_str("record"),
            CaptureWhy::Section => f.write_str("section"),
            CaptureWhy::Order => f.write_str("order"),
            CaptureWhy::BlockLength => f.write_str("block-length"),
            CaptureWhy::TrailerMismatch => f.write_str("trailer-mismatch"),
            CaptureWhy::Interface => f.write_str("interface"),
            CaptureWhy::Resolution => f.write_str("resolution"),
        }
    }
}

/// Writes the reason in lower case, with a dash between words, and the number that it has.
impl fmt::Display for FileReason {
    ghost output = { λ reason. Some (file_why_text reason.0) };

    fn fmt<W: fmt::Write>(&self, f: &mut fmt::Formatter<W>) -> fmt::Result {
        match self.0 {
            FileWhy::Cbor(at) => write!(f, "cbor {at}"),
            FileWhy::NotCdns => f.write_str("not-cdns"),
            FileWhy::Version => f.write_str("version"),
            FileWhy::NotMap => f.write_str("not-map"),
            FileWhy::Shape(key) => write!(f, "shape {key}"),
            FileWhy::Repeated(key) => write!(f, "repeated {key}"),
            FileWhy::Missing(key) => write!(f, "missing {key}"),
            FileWhy::Index(table) => write!(f, "index {table}"),
            FileWhy::Name => f.write_str("name"),
            FileWhy::ParamIndex => f.write_str("param-index"),
            FileWhy::TimeRange => f.write_str("time-range"),
            FileWhy::TooLarge => f.write_str("too-large"),
            FileWhy::Trailing => f.write_str("trailing"),
        }
    }
}
