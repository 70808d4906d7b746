ghost use Rattle.std.specs.Prelude.{◌≡◌, MatchOption, None, Some};
ghost use Rattle.cd_pairing.specs.Events.{EventView};

/// The least weight of an event, in the unit of `Keyed::weight`. A window is open only while its bytes have room for
/// one more event of this weight, and the laws on what is settled hold where no event is lighter.
pub const LEAST_WEIGHT: u64 = 256;

/// Which half of an exchange an event is.
#[derive(Clone, Copy, Debug, PartialEq, Eq)]
pub enum Side {
    /// It waits for a response, up to the query timeout.
    Query,
    /// It waits for a query that was captured late, up to the skew timeout.
    Response,
    /// It stands alone.
    Neither,
}

/// How far apart two events that stand together may be. Every bound but that on positions is inclusive.
#[derive(Clone, Copy, Debug)]
pub struct Windows {
    /// The query timeout, in nanoseconds: how far the clock may run on from a query to its response.
    pub query_ns: u64,
    /// The skew timeout, in nanoseconds: how far the clock may run on from a response to its query.
    pub skew_ns: u64,
    /// In positions: the later event stands less than this many positions after the earlier one.
    pub count: u64,
    /// The most that the events from the earlier to the later one may weigh together, both included, in the unit of
    /// `Keyed::weight`.
    pub bytes: u64,
}

/// An event that is paired by what identifies its exchange.
pub trait Keyed {
    ghost view: { Self → EventView };

    /// Which half of an exchange this is.
    fn side(&self) -> Side
        ensures { result ≡ (view self.now).side };

    /// When it was captured, in nanoseconds since 1970. Times need not rise from event to event.
    fn time(&self) -> u64
        ensures { result ≡ (view self.now).time };

    /// How many bytes it counts for in the window of bytes.
    fn weight(&self) -> u64
        ensures { result ≡ (view self.now).weight };

    /// The identifier that both halves of an exchange have, as bytes. It is compared as it stands.
    fn primary(&self) -> &[u8]
        ensures { result.now ≡ (view self.now).primary };

    /// A second identifier, as bytes, which one half may lack: two agree where they are equal or one is absent.
    fn secondary(&self) -> Option<&[u8]>
        ensures { MatchOption result
            ((view self.now).secondary ≡ None) (λ s. (view self.now).secondary ≡ Some s.now) };
}
