// Newick text recognised, by recursion on children with the brackets that may still be opened falling: the place past a sentence, or the first bad byte.
// Document 02, §2.
#![tactic(auto)]

ghost use Rattle.std.specs.Prelude.{◌≡◌, ℕ, suc, ◌+◌, ◌-◌, ◌≤◌, ◌<◌, length, drop, get_or, unwrap_or};
ghost use Rattle.newick_text.specs.Automaton.{Use, State, run, ran, Onward, place_of, Colon, start, whole, next, first, want, over, some, close};
ghost use Rattle.newick_text.specs.Automaton.{taxon as Auto·taxon, weight as Auto·weight};

// The byte at a place, where there is one.
pub fn peek(t: &[u8], at: usize) -> Option<u8>
    ensures { unwrap_or result 256 ≡ get_or t.now at 256 }
{
    t.get(at).copied()
}

// The place past the digits from `at` on.
fn digits(t: &[u8], at: usize) -> usize
    ensures l_value { (u : Use) (d l : ℕ) → run (drop at t.now) (some u d l) ≡ run (drop result t.now) (over u d l) }
    ensures lower_bound { (at ≤ result) × (at ≤ length t.now → result ≤ length t.now) }
{
    let mut i = at;
    while let Some(b'0'..=b'9') = peek(t, i) {
        i += 1;
    }
    i
}

// A number without leading zeros: the place past it, or the place of the first bad byte.
fn number(t: &[u8], at: usize) -> Result<usize, usize>
    ensures q_value { (q : State) (u : Use) (d l : ℕ) → next q (get_or t.now at 256) ≡ first u d l (get_or t.now at 256) → run (drop at t.now) q ≡ ran t.now (over u d l) result }
    ensures onward { Onward t.now at result }
{
    match peek(t, at) {
        Some(b'0') => Ok(at + 1),
        Some(b'1'..=b'9') => Ok(digits(t, at + 1)),
        _ => Err(at),
    }
}

// A colon and a weight, after what was read before p.
fn tail(t: &[u8], p: usize) -> Result<usize, usize>
    ensures k_value { (q : State) (d l : ℕ) → Colon q d l → run (drop p t.now) q ≡ ran t.now (over Auto·weight d l) result }
    ensures onward { Onward t.now p result }
{
    if peek(t, p) == Some(b':') {
        number(t, p + 1)
    } else {
        Err(p)
    }
}

// One child, with its weight.
#[cycle(child_inner)]
fn child(t: &[u8], at: usize, left: usize) -> Result<usize, usize>
    ensures by_index { (d : ℕ) → run (drop at t.now) (want Auto·taxon (suc d) left) ≡ ran t.now (over Auto·weight (suc d) left) result }
    ensures onward { Onward t.now at result }
{
    if peek(t, at) != Some(b'(') {
        let p = number(t, at)?;
        return tail(t, p);
    }
    if left == 0 {
        return Err(at);
    }
    let p = inner(t, at + 1, left - 1)?;
    tail(t, p)
}

// Children up to and with their closing bracket.
#[cycle(child_inner)]
fn inner(t: &[u8], at: usize, left: usize) -> Result<usize, usize>
    ensures by_index { (d : ℕ) → run (drop at t.now) (want Auto·taxon (suc d) left) ≡ ran t.now (close d (suc left)) result }
    ensures onward { Onward t.now at result }
{
    let mut i = at;
    loop {
        let p = child(t, i, left)?;
        match peek(t, p) {
            Some(b')') => return Ok(p + 1),
            Some(b',') => i = p + 1,
            _ => return Err(p),
        }
    }
}

// A whole text: the place past its semicolon, or the place of the first bad byte.
pub fn accepts(t: &[u8]) -> Result<usize, usize>
    ensures start_value { run t.now (start 130) ≡ whole t.now result }
    ensures result_in_bounds { place_of result ≤ length t.now }
{
    if peek(t, 0) != Some(b'(') {
        return Err(0);
    }
    let p = inner(t, 1, 129)?;
    if peek(t, p) == Some(b';') {
        Ok(p + 1)
    } else {
        Err(p)
    }
}
