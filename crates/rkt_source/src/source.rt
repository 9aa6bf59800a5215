//! Where bytes come from.
ghost use Rattle.std.specs.Prelude.{◌≡◌, ◌≤◌, ◌<◌, ℕ, IsTrue, Ok, Result, length};
ghost use Rattle.rkt_base.specs.declared.poll.Poll.{Poll};
ghost use Rattle.rkt_source.specs.declared.source.Gate.{Gate};
ghost use Rattle.rkt_source.specs.declared.source.SourceError.{SourceError};
ghost use Rattle.rkt_source.specs.Source.{Meaning, Keeps, Answers, Shuts};

use rkt_base::Poll;

/// What a poll is told of the outside: the moment, the word of a trip if there was one, and how long an object may
/// go on after that, in seconds.
#[derive(Clone, Copy, Debug, Drop, PartialEq, Eq)]
pub struct Gate {
    pub moment: u64,
    pub tripped: Option<u64>,
    pub grace: u32,
    pub mercy: u32,
}

/// Why a read was refused.
#[derive(Clone, Copy, Debug, Drop, PartialEq, Eq)]
pub enum SourceError {
    /// The source has failed.
    SourceFault,
    /// The source was shut.
    Gone,
    /// The source was cut off before it was shut.
    TimedOut,
}

/// What can be shut.
pub trait Shut: Drop {
    /// Of the object before a shutdown was polled, the answer, and the object after it.
    ghost shuts: { Self → Poll (Unit {0}) → Self → Type 0 };

    /// Asks the object to shut down.
    fn poll_shutdown(&mut self) -> Poll<()>
        ensures { shuts self.old result self.new };
}

/// A source of bytes.
pub trait Source: Shut {
    /// What contracts see of a source.
    ghost meaning: { Self → Meaning };

    /// Of the source before a read into a buffer of this length, which is not 0, the Gate that it was shown, the answer, and
    /// the source after it.
    ghost polled: { Self → Gate → ℕ → Poll (Result ℕ SourceError) → Self → Type 0 };

    /// Reads the next bytes into the front of a buffer and answers how many; 0 is the end, where the buffer is not
    /// empty.
    fn poll_read(&mut self, gate: Gate, buf: &mut [u8]) -> Poll<Result<usize, SourceError>>
        ensures polled { 0 < length buf.old → polled self.old gate (length buf.old) result self.new }
        ensures kept { Keeps gate.tripped (meaning self.old) (meaning self.new) }
        ensures answer { Answers (meaning self.old) (meaning self.new) buf.old buf.new result }
        ensures empty { length buf.old ≡ 0 → (result ≡ Poll.Ready (Ok 0)) × (self.new ≡ self.old) };

    /// One that is shut was warned.
    ghost shut_is_warned: { (s : Self) → IsTrue (meaning s).shut → IsTrue (meaning s).warned };

    /// A shutdown changes nothing but how many polls were Pending.
    ghost shutdown_keeps: { (s t : Self) (answer : Poll (Unit {0}))
        → Self.shuts s answer t
        → Shuts (meaning s) answer (meaning t) };

    /// No more of its polls were Pending than its bound says.
    ghost waits_within: { (s : Self) → (meaning s).pended ≤ (meaning s).pendings };
}
