//! The trait of what takes bytes.

ghost use Rattle.std.specs.Prelude.{◌≡◌, ℕ, ◌<◌, ◌≤◌, List, length, take, Option, IfOk, OnErr};
ghost use Rattle.std.specs.Io.KnownBytes.{append_known};
ghost use Rattle.dq_io.specs.Causes.{HasCause};

use crate::errors::Failed;

/// What takes bytes, through writes that may be short, as POSIX has them.
///
/// What an object took it may tell or not. Faults it always counts: a call fails where the count
/// rose and there alone, so that Ok says that no fault came.
pub trait Sink {
    /// The bytes taken so far, where told.
    ghost taken: { Self → Option (List ℕ) };

    /// How many faults were counted.
    ghost faults: { Self → ℕ };

    /// Takes bytes from the front of the piece, at least one where there is one, and says how many.
    fn write(&mut self, bytes: &[u8]) -> Result<usize, Failed>
        ensures bound { IfOk result (λ n. n ≤ length bytes.now) }
        ensures some { IfOk result (λ n. 0 < length bytes.now → 0 < n) }
        ensures taken { IfOk result (λ n.
            taken self.new ≡ append_known (taken self.old) (take n bytes.now)) }
        ensures err { OnErr result (taken self.new ≡ taken self.old) }
        ensures cause { HasCause (faults self.old) (faults self.new) result };
}
