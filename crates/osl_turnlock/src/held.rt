//! What a turn lock keeps.
ghost use Rattle.std.specs.Prelude.{◌≡◌, ℕ, List, Option, length};

/// A value that threads change in turns. It is seen with a log, a list of entries to which a turn may only add
/// at the end; with a mark, a number that a turn may set where there is none and that stays from then on; and
/// with a base, which no turn changes.
pub trait Held {
    /// An entry of the log, as contracts see it. No value of it need ever be made.
    type Entry;

    /// The base, as contracts see it. It is plain data, and no method gives it.
    type Base;

    ghost log: { Self → List Self.Entry };

    ghost mark: { Self → Option ℕ };

    ghost base: { Self → Self.Base };

    /// The length of the log, in entries.
    fn count(&self) -> u64
        ensures { result ≡ length (log self.now) };

    /// The mark, or None where it is not set.
    fn mark(&self) -> Option<u64>
        ensures { result ≡ mark self.now };
}
