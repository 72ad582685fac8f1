//! The trait of files that are read by name.

ghost use Rattle.std.specs.Prelude.{◌≡◌, ℕ, ◌+◌, ◌<◌, ◌≤◌, Bool, true, List, length, take, drop, Option, IfSome, IfOk, OnOk, OnErr, IsOk, IsErr};
ghost use Rattle.std.specs.Io.KnownBytes.{prepend_known, IsAtEnd};
ghost use Rattle.dq_io.specs.Causes.{HasCause, next_count};
ghost use Rattle.dq_io.specs.Files.{Holding, Absent, whole, nothing};

use crate::errors::Failed;

/// Files that are read by name, one at a time, through reads that may be short, as POSIX has them.
/// Before the first `pick` nothing is left to read.
///
/// What an object knows of its files it may tell or not. Faults it always counts: a call fails
/// where the count rose and there alone, so that Ok says that no fault came.
pub trait Files {
    /// What is told of the file of a name.
    ghost held: { Self → List ℕ → Holding };

    /// What is left to read of the picked file, where told.
    ghost rest: { Self → Option (List ℕ) };

    /// How many bytes `read` has given since the last `pick`.
    ghost given: { Self → ℕ };

    /// How many faults were counted.
    ghost faults: { Self → ℕ };

    /// How many times a file was picked, successfully or not.
    ghost picks: { Self → ℕ };

    /// Whether it is told that no call fails but a pick of a name that isn't held.
    ghost reliable: { Self → Bool };

    /// Picks the file of that name, to be read from its front. A name that isn't held is a fault,
    /// and after one nothing is left to read.
    fn pick(&mut self, name: &str) -> Result<(), Failed>
        ensures ok { OnOk result (rest self.new ≡ whole (held self.old name.now)) }
        ensures err { OnErr result (rest self.new ≡ nothing (held self.old name.now)) }
        ensures absent { held self.old name.now ≡ Absent → IsErr result }
        ensures given { given self.new ≡ 0 }
        ensures held { held self.new ≡ held self.old }
        ensures cause { HasCause (faults self.old) (faults self.new) result }
        ensures picked { picks self.new ≡ next_count (picks self.old) }
        ensures reliable { reliable self.old ≡ true → IsErr result
            → held self.old name.now ≡ Absent }
        ensures still_reliable { reliable self.new ≡ reliable self.old };

    /// Moves bytes from the front of what is left into the front of the buffer, and says how many:
    /// none only where nothing is left or the buffer is empty.
    fn read(&mut self, buf: &mut [u8]) -> Result<usize, Failed>
        ensures bound { IfOk result (λ n. n ≤ length buf.new) }
        ensures moved { IfOk result (λ n.
            prepend_known (take n buf.new) (rest self.new) ≡ rest self.old) }
        ensures kept { IfOk result (λ n.
            IfSome (rest self.old) (λ _. drop n buf.new ≡ drop n buf.old)) }
        ensures end { IfOk result (λ n. n ≡ 0 → 0 < length buf.new → IsAtEnd (rest self.old)) }
        ensures given { IfOk result (λ n. given self.new ≡ given self.old + n) }
        ensures err_rest { OnErr result (rest self.new ≡ rest self.old) }
        ensures err_given { OnErr result (given self.new ≡ given self.old) }
        ensures held { held self.new ≡ held self.old }
        ensures cause { HasCause (faults self.old) (faults self.new) result }
        ensures picks { picks self.new ≡ picks self.old }
        ensures reliable { reliable self.old ≡ true → IsOk result }
        ensures still_reliable { reliable self.new ≡ reliable self.old };
}
