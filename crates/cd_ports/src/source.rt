//! What a source is.

ghost use Rattle.std.specs.Prelude.{◌≡◌, ◌&&◌, ◌||◌, is_err};
ghost use Rattle.std.specs.Io.{ReadsAtMost};
ghost use Rattle.std.specs.Io.KnownBytes.{ReadConsumes};
ghost use Rattle.cd_ports.specs.Counter.{next_count};
ghost use Rattle.cd_ports.specs.Reading.{SourceMeaning, HasCause, tells_end, gives_byte};

/// The device failed. Nothing was given.
#[derive(Clone, Copy, Debug, PartialEq, Eq)]
pub struct Failed;

/// Where bytes come from. Its meaning is what is left, where it tells it, a count of its faults, and what its calls have
/// answered.
pub trait Source {
    // What a source means to a contract.
    ghost means: { Self → SourceMeaning };

    /// Gives the first of the bytes left, at most as many as `buf` has room for, and answers how many. With room, `Ok(0)` is
    /// the end. At an `Err` no byte was taken, and the call can be made again.
    fn read(&mut self, buf: &mut [u8]) -> Result<usize, Failed>
        ensures bound { ReadsAtMost result buf.new }
        ensures bytes { ReadConsumes (means self.old).left (means self.new).left result buf.new }
        ensures cause { HasCause (means self.old).faults (means self.new).faults result }
        ensures ended { (means self.new).ended ≡ tells_end result buf.new }
        ensures failed { (means self.new).failed ≡ ((means self.old).failed || is_err result) }
        ensures calls { (means self.new).calls ≡ next_count (means self.old).calls }
        ensures late { (means self.new).late ≡ ((means self.old).late || ((means self.old).failed && gives_byte result)) };
}
