// Finite ranges of numbers: the search for the lowest that passes a test. Sums, tests and folds over a range have definitions (specs/Range.antt)
// and laws (proofs/) alone.
#![tactic(auto)]

ghost use Rattle.std.specs.Prelude.{◌≡◌, Bool, ℕ, ◌≤◌, ◌<◌};
ghost use Rattle.finite.specs.Range.{lowest, IsFound};

// The lowest of from, .., to - 1 that passes, where one does.
pub fn first_passing<F: Fn(usize) -> bool>(from: usize, to: usize, passes: F) -> Option<usize>
    requires ordered { from ≤ to }
    requires callable { (i : ℕ) → from ≤ i → i < to → F.pre passes i }
    ensures { (p : ℕ → Bool) → ((i : ℕ) (b : Bool) → from ≤ i → i < to → F.post passes i b → b ≡ p i) → IsFound to (lowest from to p) result }
{
    for i in from..to {
        if passes(i) {
            return Some(i);
        }
    }
    None
}

// The lowest of from, .., to - 1 that passes, and `to` where none does; `from` where `to` is below it.
pub fn lowest_passing<F: Fn(usize) -> bool>(from: usize, to: usize, passes: F) -> usize
    requires { (i : ℕ) → from ≤ i → i < to → F.pre passes i }
    ensures { (p : ℕ → Bool) → ((i : ℕ) (b : Bool) → from ≤ i → i < to → F.post passes i b → b ≡ p i) → result ≡ lowest from to p }
{
    if to < from {
        return from;
    }
    first_passing(from, to, passes).unwrap_or(to)
}
