//! A law of the definition.

ghost use Rattle.std.specs.Prelude.{◌<◌, ℕ, List, Bool, length, All};
ghost use Rattle.jl_closure.specs.Reached.{AreMarksOf};

/// For all places and starts there are marks of exactly the places that are reached.
pub fn marks_exist()
    ensures { (next : List (List ℕ)) (starts : List ℕ) → All (λ row. All (λ p. p < length next) row) next → All (λ p. p < length next) starts
        → (marks : List Bool) × AreMarksOf next starts marks }
{}
