// The table of resolved fours: how many bytes it has, and its own checks (document 01, "Table rule", "Refusal numbers"). The table is lent as its bytes,
// one for each four of n taxa.
#![tactic(auto)]

ghost use Rattle.std.specs.Prelude.{◌≡◌, ℕ, ◌≤◌, ◌<◌, length, get_or, [], ◌∷◌, IfOk};
ghost use Rattle.statement.specs.Table.{choose, AcceptedTable};
ghost use Rattle.statement.specs.Refusals.{outcome_of, byte_off, table_checks};
ghost use Rattle.statement.specs.Replies.{said};

use statement::{Reason, Refusal};

// A table that passed its checks, with the number of its taxa.
#[derive(Clone, Copy)]
pub struct Table<'a> {
    pub n: usize,
    pub bytes: &'a [u8],
    pub ghost accepted: { AcceptedTable n bytes.now },
}

// C(p,q), which is 0 if p < q.
pub fn binomial(p: usize, q: usize) -> usize
    requires { (p ≤ 64) × (q ≤ 4) }
    ensures { result ≡ choose p q }
{
    if p < q {
        return 0;
    }
    let mut r = 1;
    for i in 0..q {
        r = r * (p - i) / (i + 1);
    }
    r
}

// How many fours n taxa have: the length of their table.
pub fn fours(n: usize) -> usize
    requires { n ≤ 64 }
    ensures { result ≡ choose n 4 }
{
    binomial(n, 4)
}

// A byte that none exceeds, looked for without a stop: where all is well there is nothing to find.
fn greatest(bytes: &[u8]) -> u8
    ensures { (i : ℕ) → i < length bytes.now → get_or bytes.now i 0 ≤ result }
{
    let mut top = 0;
    for &b in bytes {
        top = b.max(top);
    }
    top
}

// Refusal 6: a byte above 3, the lowest.
fn check_bytes(bytes: &[u8]) -> Result<(), Refusal>
    ensures { said result ≡ outcome_of (byte_off bytes.now ∷ []) }
{
    if greatest(bytes) <= 3 {
        return Ok(());
    }
    match bytes.iter().position(|&b| b > 3) {
        Some(place) => Err(Reason::TableByte.at(place)),
        None => Ok(()),
    }
}

impl<'a> Table<'a> {
    // The table's own checks: 1, 2, 6.
    pub fn read(n: usize, bytes: &'a [u8]) -> Result<Table<'a>, Refusal>
        ensures said { said result ≡ outcome_of (table_checks n bytes.now) }
        ensures ok { IfOk result (λ t. (t.n ≡ n) × (t.bytes ≡ bytes.entry)) }
    {
        if n < 2 || n > 64 {
            return Err(Reason::Taxa.at(0));
        }
        if bytes.len() != fours(n) {
            return Err(Reason::Length.at(0));
        }
        check_bytes(bytes)?;
        Ok(Table { n, bytes })
    }
}
