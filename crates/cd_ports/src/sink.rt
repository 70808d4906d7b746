//! What a sink is.

ghost use Rattle.std.specs.Prelude.{◌≡◌, ◌||◌, is_err};

/// Why a piece was not written whole.
#[derive(Clone, Copy, Debug, PartialEq, Eq)]
pub enum SinkFault {
    /// The device failed, and a prefix of the piece may have been written.
    Failed,
    /// No memory was found, and a prefix of the piece may have been written.
    NoMemory,
}

/// Where bytes go. Its meaning is what it holds, where it tells it, a count of its faults, and whether a call failed or was
/// refused.
pub trait Sink {
    ghost use Rattle.cd_ports.specs.Writing.{SinkMeaning, WriteStep};

    // What a sink means to a contract.
    ghost means: { Self → SinkMeaning };

    /// Appends the piece, or a prefix of it at an `Err`, which may be empty or all of it.
    fn write(&mut self, piece: &[u8]) -> Result<(), SinkFault>
        ensures { WriteStep (means self.old) (means self.new) result piece.now };
}
