//! Runs of labels: what is read without following a pointer (RFC 1035 4.1.4).

ghost use Rattle.std.specs.Prelude.{◌≡◌};
ghost use Rattle.cd_name.specs.Names;

use crate::piece::{FIRST_POINTER, MAX_LABEL};

/// Whether the bytes end before the run of labels at an offset does: before its root, within a label or within the
/// pointer that ends it. A run that a length byte of 64 to 191 ends is not cut.
pub fn run_is_cut(payload: &[u8], at: usize) -> bool
    ensures { result ≡ Names.run_is_cut payload.now at }
{
    let mut here = at;
    'labels: while here < payload.len() {
        let first = usize::from(payload[here]);
        if first == 0 {
            return false;
        }
        if first >= FIRST_POINTER {
            return payload.len() - here < 2;
        }
        if first > MAX_LABEL {
            return false;
        }
        if payload.len() - here <= first {
            return true;
        }
        here += first + 1;
    }
    true
}
