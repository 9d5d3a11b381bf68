// The checks of a tree's body that need no clusters: 1, 2, 9, 14, 10 and 11, each over the whole input before the next, at the lowest place.
// Document 01, "Refusal numbers".
#![tactic(auto)]

ghost use Rattle.std.specs.Prelude.{◌≡◌, [], ◌∷◌, ◌+◌, ◌*◌, ◌≤◌, ◌<◌, ltb, length, get_or};
ghost use Rattle.statement.specs.Lowest.{somewhere};
ghost use Rattle.statement.specs.Tree.{up, on_walk};
ghost use Rattle.statement.specs.Bytes.{from_bytes};
ghost use Rattle.statement.specs.Refusals.{outcome_of, tree_fits, walk_off};
ghost use Rattle.tree_check.specs.Parts.{linked, bad_weight, first_checks};
ghost use Rattle.statement.specs.Replies.{said};

use statement::{Reason, Refusal};
use tree_body::{links_in, weights_in, word_at};

// The length is that of a tree of n taxa with 0 to 2n-3 edges.
pub fn tree_fits(n: usize, len: usize) -> bool
    requires { (2 ≤ n) × (n ≤ 64) }
    ensures { result ≡ tree_fits n len }
{
    len.checked_sub(1 + n)
        .is_some_and(|rest| rest % 5 == 0 && rest / 5 < 2 * n - 2)
}

// One of the bytes behind the first, `count` of them, is above m.
fn some_above(m: usize, body: &[u8], count: usize) -> bool
    requires { count < length body.now }
    ensures { result ≡ somewhere (λ i. ltb m (get_or body.now (1 + i) 0)) count }
{
    places::somewhere(count, |i| m < usize::from(body[1 + i]))
}

// The check of m weights: 14 at the lowest that is 0 or above 2,000,000.
fn check_weights(m: usize, bytes: &[u8]) -> Result<(), Refusal>
    requires { 4 * m ≤ length bytes.now }
    ensures { said result ≡ outcome_of (record { number = 14; places = m; bad = bad_weight (from_bytes bytes.now) } ∷ []) }
{
    places::refuse(Reason::Weight, m, |v| {
        let weight = word_at(bytes, 4 * v);
        weight == 0 || 2000000 < weight
    })
}

// One step up from v: to its link; the root stays.
pub fn step_up(links: &[u8], v: usize) -> usize
    ensures { result ≡ up (linked links.now) v }
{
    links.get(v).map_or(links.len(), |&link| usize::from(link))
}

// The walk up from v reaches the root, within as many steps as there are edges.
fn reaches(links: &[u8], v: usize) -> bool
    ensures { result ≡ on_walk (linked links.now) v (length links.now) }
{
    let m = links.len();
    let mut at = v;
    for _ in 0..=m {
        if at == m {
            return true;
        }
        at = step_up(links, at);
    }
    false
}

// The check of the walks: 10 at the lowest vertex whose walk never reaches the root.
fn check_walks(links: &[u8]) -> Result<(), Refusal>
    ensures { said result ≡ outcome_of (walk_off (linked links.now) ∷ []) }
{
    places::refuse(Reason::Walk, links.len(), |v| !reaches(links, v))
}

// The first of these checks that fails, at its lowest place.
pub fn check(n: usize, body: &[u8]) -> Result<(), Refusal>
    ensures { said result ≡ outcome_of (first_checks n body.now) }
{
    if n < 2 || 64 < n {
        return Err(Reason::Taxa.at(0));
    }
    if !tree_fits(n, body.len()) {
        return Err(Reason::Length.at(0));
    }
    let m = usize::from(body[0]);
    if body.len() != 1 + n + 5 * m || some_above(m, body, m + n) {
        return Err(Reason::Tree.at(0));
    }
    check_weights(m, weights_in(n, m, body))?;
    check_walks(links_in(m, body))?;
    if usize::from(body[1 + m]) != m {
        return Err(Reason::Home.at(0));
    }
    Ok(())
}
