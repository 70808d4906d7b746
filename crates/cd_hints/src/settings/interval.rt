ghost use Rattle.std.specs.Prelude.{◌≡◌};
ghost use Rattle.std.specs.Int.{is_in_range};

/// The numbers from `least` to `most`, both included. It holds none where `most` is below `least`.
#[derive(Clone, Copy, Debug, PartialEq, Eq)]
pub struct Interval {
    pub least: u64,
    pub most: u64,
}

impl Interval {
    /// Whether a number is one of these.
    pub fn holds(self, number: u64) -> bool
        ensures { result ≡ is_in_range self.least self.most number }
    {
        self.least <= number && number <= self.most
    }
}
