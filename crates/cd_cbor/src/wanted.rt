//! What open arrays, maps and tags want.

ghost use Rattle.std.specs.Prelude.{◌≡◌};
ghost use Rattle.cd_cbor.specs.Events.{after_one};

/// What an open array, map or tag wants next.
#[derive(Clone, Copy, Debug, Default, PartialEq, Eq)]
pub enum Wanted {
    /// An item or a break.
    #[default]
    Elements,
    /// An item, and so many after it.
    Items(u64),
    /// A key with its value, and so many pairs after it.
    Pairs(u64),
    /// A value, and so many pairs after it.
    Half(u64),
    /// A key or a break.
    Keys,
    /// A value, after which keys may come.
    Value,
}

// What it wants after one more item, if it wants any.
pub(crate) fn after_one(wanted: Wanted) -> Option<Wanted>
    ensures { result ≡ after_one wanted }
{
    match wanted {
        Wanted::Items(n) => {
            if n == 0 {
                None
            } else {
                Some(Wanted::Items(n - 1))
            }
        }
        Wanted::Pairs(n) => Some(Wanted::Half(n)),
        Wanted::Half(n) => {
            if n == 0 {
                None
            } else {
                Some(Wanted::Pairs(n - 1))
            }
        }
        Wanted::Elements => Some(Wanted::Elements),
        Wanted::Keys => Some(Wanted::Value),
        Wanted::Value => Some(Wanted::Keys),
    }
}
