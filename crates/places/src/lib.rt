// Searches over places by a test that the caller brings: the lowest place where it holds, whether there is one, and the refusal there.
// Document 01, "Refusal numbers": places are the lowest.
#![tactic(auto)]

ghost use Rattle.std.specs.Prelude.{◌≡◌, ℕ, Bool, ◌<◌, [], ◌∷◌};
ghost use Rattle.statement.specs.Lowest.{lowest, somewhere};
ghost use Rattle.statement.specs.Refusals.{outcome_of};
ghost use Rattle.statement.specs.Said.{number_of_reason};
ghost use Rattle.statement.specs.Replies.{said};

use statement::{Reason, Refusal};

// The lowest of the places 0 to m - 1 where the test holds; m where there is none.
pub fn lowest<F: Fn(usize) -> bool>(m: usize, test: F) -> usize
    requires { (i : ℕ) → i < m → F.pre test i }
    ensures { (p : ℕ → Bool) → ((i : ℕ) → i < m → (r : Bool) → F.post test i r → r ≡ p i) → result ≡ lowest p m }
{
    for i in 0..m {
        if test(i) {
            return i;
        }
    }
    m
}

// Whether it holds at one of them.
pub fn somewhere<F: Fn(usize) -> bool>(m: usize, test: F) -> bool
    requires { (i : ℕ) → i < m → F.pre test i }
    ensures { (p : ℕ → Bool) → ((i : ℕ) → i < m → (r : Bool) → F.post test i r → r ≡ p i) → result ≡ somewhere p m }
{
    lowest(m, test) < m
}

// Refused for a reason at the lowest of them where the test holds, if there is one.
pub fn refuse<F: Fn(usize) -> bool>(reason: Reason, m: usize, test: F) -> Result<(), Refusal>
    requires { (i : ℕ) → i < m → F.pre test i }
    ensures { (p : ℕ → Bool) → ((i : ℕ) → i < m → (r : Bool) → F.post test i r → r ≡ p i) → said result ≡ outcome_of (record { number = number_of_reason reason; places = m; bad = p } ∷ []) }
{
    let place = lowest(m, test);
    if place < m {
        Err(reason.at(place))
    } else {
        Ok(())
    }
}
