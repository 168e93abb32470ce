//! Faults of readers.

ghost use Rattle.std.specs.Prelude.{◌≡◌, ℕ, Option, Some};

/// What a reader answers where it cannot read. The input may be too short for every reader.
pub trait Fault: Sized {
    /// What an answer tells: the fault itself, or nothing where there was no memory to find it.
    ghost told: { Self → Option Self };

    /// The fault for a unit that is not whole, with its place.
    ghost short: { ℕ → Self };

    /// The unit at this place is not whole.
    fn short(at: usize) -> Self
        ensures { result ≡ short at };

    /// A unit that is not whole is told.
    ghost tells_short: { (at : ℕ) → told (short at) ≡ Some (short at) };
}
