//! The interfaces of accumulators, each told by which lists of optional values it may stand for.

ghost use Rattle.std.specs.Prelude.{◌≡◌, ℕ, ◌≤◌, List, [], length, Option as Opt};
ghost use Rattle.rows.specs.Rows.{kept};
ghost use Rattle.accumulators.specs.Figures.{Figure, Lawful, Retracting, Each};
ghost use Rattle.accumulators.specs.Calls.{Updates, Writes};

use crate::refusals::{Full, Short};
use kinds::ordered::Ordered;
use rows::arguments::Arguments;

/// A running figure over a list of optional values. Its numbers, the state, decide what every call
/// answers and leaves, whether or not they stand for a list; the law `lawful` says what the calls do to
/// the list where they do.
pub trait Accumulator: Sized + Drop {
    type Value: Ordered;

    type Answer: Copy;

    ghost numbers: { Self → List ℕ };

    ghost figure: { Figure Self.Value Self.Answer };

    /// Which lists of optional values such numbers may stand for.
    ghost stands: { List ℕ → List (Opt Self.Value) → Type 0 };

    /// The answer over a list as the SQL standard has it.
    ghost standard: { List (Opt Self.Value) → Opt Self.Answer → Type 0 };

    /// One that stands for the empty list.
    fn new() -> Self
        ensures { numbers result ≡ figure.state [] };

    /// Puts a batch behind the list; refused, unchanged, if the rows held would pass the capacity.
    fn update(&mut self, rows: &Arguments<Self::Value>) -> Result<(), Full>
        ensures { Updates figure numbers self.old self.new (kept rows.now) result };

    /// The answer; `None` is missing.
    fn evaluate(&self) -> Option<Self::Answer>
        ensures { result ≡ figure.answered (numbers self.now) };

    /// How many numbers the state has.
    fn state_len(&self) -> usize
        ensures { result ≡ length (numbers self.now) };

    /// Writes the state from the start of `out`, and says how many numbers it has.
    fn state(&self, out: &mut [u64]) -> Result<usize, Short>
        ensures { Writes (numbers self.now) out.old out.new result };

    ghost lawful: { Lawful figure stands };

    ghost sql: { (xs : List (Opt Self.Value)) → length xs ≤ figure.capacity → Each Self.Value.Ordered.fits xs → standard xs (figure.answer xs) };
}

/// An accumulator that can also drop rows again, the oldest first.
pub trait Retract: Accumulator {
    ghost retracted: { List ℕ → List (Opt Self.Value) → List ℕ };

    /// Drops a batch, which is the oldest part of the list stood for.
    fn retract(&mut self, rows: &Arguments<Self::Value>)
        ensures { Self.Accumulator.numbers self.new ≡ retracted (Self.Accumulator.numbers self.old) (kept rows.now) };

    ghost retracting: { Retracting Self.Accumulator.figure Self.Accumulator.stands retracted };
}
