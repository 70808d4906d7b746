//! What a machine is.

ghost use Rattle.std.specs.Prelude.{◌≡◌, ℕ, ◌+◌, ◌≤◌, List, ◌++◌, length, None, IfOk, OnOk};

use cd_name::Blob;
use std::alloc::AllocError;

/// What a machine gives where nothing follows the bytes that it was fed.
#[derive(Drop)]
pub struct Finished<C> {
    /// All output that was not cleared.
    pub output: Blob,
    /// What is counted in the bytes fed.
    pub counts: C,
}

/// Makes bytes of bytes that it is fed in chunks. To a contract it means a `Behavior`, and it stands for each
/// history of it: the bytes fed, and the output that was ready and is cleared. An `Err` of any call says that no
/// memory was found; the machine stands for no history then, and is of no more use.
pub trait Machine {
    ghost use Rattle.cd_drive.specs.Behaviors.{Behavior, IsLawful};

    /// What bytes are refused for.
    type Refusal: Copy;

    /// What is counted in bytes.
    type Counts: Drop;

    // What it makes of bytes.
    ghost means: { Self → Behavior Self.Refusal Self.Counts };

    // It stands for these: all bytes fed, and all output that was cleared.
    ghost stands: { Self → List ℕ → List ℕ → Type 0 };

    // So many more bytes may be fed.
    ghost space: { Self → ℕ };

    /// Takes the next chunk, and answers what the bytes fed are refused for, where they are.
    fn feed(&mut self, chunk: &[u8]) -> Result<Option<Self::Refusal>, AllocError>
        requires { length chunk.now ≤ space self.old }
        ensures history { OnOk result ((fed cleared : List ℕ) → stands self.old fed cleared →
            stands self.new (fed ++ chunk.now) cleared) }
        ensures refusal { IfOk result (λ said. (fed cleared : List ℕ) → stands self.old fed cleared →
            said ≡ (means self.old).refusal (fed ++ chunk.now)) }
        ensures same { OnOk result (means self.new ≡ means self.old) }
        ensures space { OnOk result (space self.old ≤ space self.new + length chunk.now) };

    /// What the bytes fed are refused for where nothing follows them.
    fn at_end(&self) -> Option<Self::Refusal>
        ensures { (fed cleared : List ℕ) → stands self.now fed cleared → (means self.now).refusal fed ≡ None →
            result ≡ (means self.now).at_end fed };

    /// The output that is ready and was not cleared.
    fn output(&self) -> &[u8]
        ensures { (fed cleared : List ℕ) → stands self.now fed cleared →
            cleared ++ result.now ≡ (means self.now).ready fed };

    /// Clears the output that is ready.
    fn clear_output(&mut self)
        ensures history { (fed cleared : List ℕ) → stands self.old fed cleared →
            stands self.new fed ((means self.old).ready fed) }
        ensures same { means self.new ≡ means self.old }
        ensures space { space self.old ≤ space self.new };

    /// All output that was not cleared, where nothing follows the bytes fed, and the counts.
    fn finish(self) -> Result<Finished<Self::Counts>, AllocError>
        ensures output { IfOk result (λ f. (fed cleared : List ℕ) → stands self fed cleared →
            cleared ++ f.output ≡ (means self).whole fed) }
        ensures counts { IfOk result (λ f. (fed cleared : List ℕ) → stands self fed cleared →
            f.counts ≡ (means self).counts fed) };

    // Output that is due stays due and is a front of all output, and bytes that are refused stay so.
    ghost lawful: { (machine : Self) → IsLawful (means machine) };
}
