//! Laws on the definitions, each the contract of a function that does nothing.

ghost use Rattle.std.specs.Prelude.{◌≡◌, ℕ, ◌^◌, ◌<◌, ◌++◌, List, length, drop, All};
ghost use Rattle.std.specs.Int.{w16, w32, w64};
ghost use Rattle.cd_bytes.specs.declared.order.Order.{Order};
ghost use Rattle.cd_bytes.specs.declared.order.Order.TheVariants.{Big, Little};
ghost use Rattle.cd_bytes.specs.Numbers.{number_of, bytes_of, be16, be32, le16, le32};

/// What `Out` writes for a number in either order, `Cursor` reads as that number in the same order, whatever follows.
pub fn numbers_are_read_as_written()
    ensures two { (order : Order) (n : ℕ) (more : List ℕ) → n < 2 ^ 16 → number_of w16 order (bytes_of w16 order n ++ more) ≡ n }
    ensures four { (order : Order) (n : ℕ) (more : List ℕ) → n < 2 ^ 32 → number_of w32 order (bytes_of w32 order n ++ more) ≡ n }
    ensures eight { (order : Order) (n : ℕ) (more : List ℕ) → n < 2 ^ 64 → number_of w64 order (bytes_of w64 order n ++ more) ≡ n }
{}

/// What `Cursor` reads from bytes in either order, `Out` writes as those bytes in the same order.
pub fn bytes_are_written_as_read()
    ensures two { (order : Order) (bytes : List ℕ) → length bytes ≡ 2 → All (λ byte. byte < 256) bytes → bytes_of w16 order (number_of w16 order bytes) ≡ bytes }
    ensures four { (order : Order) (bytes : List ℕ) → length bytes ≡ 4 → All (λ byte. byte < 256) bytes → bytes_of w32 order (number_of w32 order bytes) ≡ bytes }
    ensures eight { (order : Order) (bytes : List ℕ) → length bytes ≡ 8 → All (λ byte. byte < 256) bytes → bytes_of w64 order (number_of w64 order bytes) ≡ bytes }
{}

/// A number at an offset is that of the bytes from the offset on, as `Cursor` reads them in the same order.
pub fn numbers_at_offsets_are_read_there()
    ensures be16 { (at : ℕ) (bytes : List ℕ) → be16 at bytes ≡ number_of w16 Big (drop at bytes) }
    ensures be32 { (at : ℕ) (bytes : List ℕ) → be32 at bytes ≡ number_of w32 Big (drop at bytes) }
    ensures le16 { (at : ℕ) (bytes : List ℕ) → le16 at bytes ≡ number_of w16 Little (drop at bytes) }
    ensures le32 { (at : ℕ) (bytes : List ℕ) → le32 at bytes ≡ number_of w32 Little (drop at bytes) }
{}
