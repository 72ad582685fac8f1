//! Files that are handed on piece by piece, so that no whole text has to stand in memory.

ghost use Rattle.std.specs.Prelude.{◌≡◌, ℕ, ◌<◌, ◌≤◌, ◌↔◌, ◌++◌, true, List, length, OnOk, IsErrOf, Err};
ghost use Rattle.std.specs.Io.KnownBytes.{IsAtEnd};
ghost use Rattle.dq_io.specs.Causes.{Rose, next_count};
ghost use Rattle.dq_io.specs.Feeding.{WasFed};
ghost use Rattle.dq_io.specs.Files.{Absent, Holds};

use crate::errors::FeedStop;
use crate::files::Files;

/// What takes a text piece by piece, however it is cut.
pub trait Feed {
    /// What the text is about, if anything.
    type Subject;

    /// The same, which stays as pieces come.
    ghost subject: { Self → Self.Subject };

    /// It stands for these bytes: they are what was fed so far.
    ghost stands: { Self → List ℕ → Type 0 };

    /// Takes the next piece. What is wrong with a text, and want of memory, is kept until the text
    /// ends.
    fn feed(&mut self, piece: &[u8])
        ensures stands { (text : List ℕ) → stands self.old text
            → stands self.new (text ++ piece.now) }
        ensures subject { subject self.new ≡ subject self.old };
}

/// Feeds the file of that name through a buffer, which isn't empty, up to the first read that gives
/// nothing, since a short read isn't the end. It stops at a failed call, and once more than `limit`
/// bytes were given; what was fed until then is a prefix of the file.
pub fn feed_all<F: Files, T: Feed>(
    files: &mut F,
    name: &str,
    limit: u64,
    to: &mut T,
    buffer: &mut [u8],
) -> Result<(), FeedStop>
    requires room { 0 < length buffer.old }

    // Where the files tell, all bytes held are fed on Ok, and no more are given than are held.
    ensures fed { WasFed (T.stands to.old) (T.stands to.new) (F.held files.old name.now)
        (F.given files.new) result }
    ensures subject { T.subject to.new ≡ T.subject to.old }
    ensures longer { (bytes : List ℕ) →
        F.held files.old name.now ≡ Holds bytes → F.given files.new ≤ length bytes }
    ensures absent { F.held files.old name.now ≡ Absent → result ≡ Err FeedStop.Fault }

    // Over all files, `given` decides what is too long.
    ensures end { OnOk result (IsAtEnd (F.rest files.new)) }
    ensures too_long { IsErrOf result FeedStop.TooLong ↔ (limit < F.given files.new) }

    // A fault has its cause, and where one is counted it is the answer.
    ensures fault { IsErrOf result FeedStop.Fault → Rose (F.faults files.old) (F.faults files.new) }
    ensures unfaulted { ¬ IsErrOf result FeedStop.Fault → F.faults files.new ≡ F.faults files.old }
    ensures later { F.faults files.old ≤ F.faults files.new }
    ensures held { F.held files.new ≡ F.held files.old }

    // One file is picked. Over files that are told to be reliable only one that isn't held is a
    // fault.
    ensures picked { F.picks files.new ≡ next_count (F.picks files.old) }
    ensures reliable { F.reliable files.old ≡ true → IsErrOf result FeedStop.Fault →
        F.held files.old name.now ≡ Absent }
    ensures still_reliable { F.reliable files.new ≡ F.reliable files.old }
{
    if files.pick(name).is_err() {
        return Err(FeedStop::Fault);
    }
    let mut given = 0;
    loop {
        let Ok(count) = files.read(buffer) else {
            return Err(FeedStop::Fault);
        };
        if count == 0 {
            return Ok(());
        }
        if count as u64 > limit - given {
            return Err(FeedStop::TooLong);
        }
        to.feed(&buffer[..count]);
        given += count as u64;
    }
}
