//! Fields that are kept where their hint is set.

ghost use Rattle.std.specs.Prelude.{◌≡◌};
ghost use Rattle.cd_hints.specs.Hinted.{is_hinted, kept};

// Whether the bit of a hint is set.
pub(crate) fn is_hinted(hints: u32, hint: u32) -> bool
    ensures { result ≡ is_hinted hints hint }
{
    hints & hint != 0
}

// What is kept of a field: its value, where it has one and its hint is set.
pub(crate) fn kept<T: Drop>(hints: u32, hint: u32, value: Option<T>) -> Option<T>
    ensures { result ≡ kept hints hint value }
{
    if is_hinted(hints, hint) { value } else { None }
}
