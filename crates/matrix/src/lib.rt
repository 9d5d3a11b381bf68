// A distance matrix, n by n, row by row: its checks, and the signed score of a pairing with the weight that it lowers.
// Document 01, "Scores and splits" and "Refusal numbers".
#![tactic(auto)]

ghost use Rattle.std.specs.Prelude.{◌+◌, ◌*◌, ◌≤◌, ◌<◌, min, ◌≡◌, pos, ℕ, [], ◌∷◌, length, get_or, IfOk};
ghost use Rattle.std.proofs.Math.IntN.{sub_ℕ};
ghost use Rattle.std.specs.Int.Signed.{lt_z};
ghost use Rattle.statement.specs.Matrix.{AcceptedMatrix, distance, distance_limit, score};
ghost use Rattle.statement.specs.Growing.{above};
ghost use Rattle.statement.specs.Refusals.{Check, outcome_of, matrix_checks};
ghost use Rattle.statement.specs.Replies.{said};
ghost use Rattle.matrix.specs.Square.{Square};
ghost use Rattle.matrix.specs.Checking.{IsLine};

use statement::{Reason, Refusal};

// An accepted matrix of n taxa: its distances, n by n, row by row.
#[derive(Clone, Copy)]
pub struct Matrix<'a> {
    pub n: usize,
    pub entries: &'a [u32],
    pub ghost accepted: { AcceptedMatrix n entries.now },
}

// The entry in row i and column j of a matrix that is not checked yet.
fn entry(n: usize, entries: &[u32], i: usize, j: usize) -> u32
    requires { Square n entries.now × (i < n) × (j < n) }
    ensures { result ≡ distance n entries.now i j }
{
    entries[i * n + j]
}

// One check of all the entries, each by its row and its column: the lowest bad one, row by row, is refused.
fn check_entries<F: Fn(usize, usize) -> bool>(
    n: usize,
    reason: Reason,
    bad: F,
) -> Result<(), Refusal>
    requires { (n ≤ 64) × ((i j : ℕ) → i < n → j < n → F.pre bad i j) }
    ensures { (c : Check) → IsLine n reason (F.post bad) c → said result ≡ outcome_of (c ∷ []) }
{
    for row in 0..n {
        for column in 0..n {
            if bad(row, column) {
                return Err(reason.at(row * n + column));
            }
        }
    }
    Ok(())
}

impl<'a> Matrix<'a> {
    ghost use Rattle.matrix.specs.Distances.{distances};

    // Refusals 1 to 5 in their order, each over the whole input before the next.
    pub fn read(n: usize, entries: &'a [u32]) -> Result<Matrix<'a>, Refusal>
        ensures said { said result ≡ outcome_of (matrix_checks n entries.now) }
        ensures ok { IfOk result (λ m. (m.n ≡ n) × (m.entries ≡ entries.entry)) }
    {
        if n < 2 || n > 64 {
            return Err(Reason::Taxa.at(0));
        }
        if entries.len() != n * n {
            return Err(Reason::Length.at(0));
        }
        check_entries(
            n,
            Reason::Diagonal,
            |i, j| i == j && entry(n, entries, i, j) != 0,
        )?;
        check_entries(
            n,
            Reason::Distance,
            |i, j| entry(n, entries, i, j) > 1000000,
        )?;
        check_entries(
            n,
            Reason::Pair,
            |i, j| i < j && entry(n, entries, i, j) != entry(n, entries, j, i),
        )?;
        Ok(Matrix { n, entries })
    }

    // The distance of two taxa.
    pub fn at(&self, i: usize, j: usize) -> u32
        requires { (i < self.now.n) × (j < self.now.n) }
        ensures { (result ≡ distances self.now i j) × (result ≤ distance_limit) }
    {
        self.entries[i * self.n + j]
    }

    // The distances of one taxon, by the other.
    pub fn row(&self, i: usize) -> &'a [u32]
        requires { i < self.now.n }
        ensures long { length result.now ≡ self.now.n }
        ensures each { (j : ℕ) → j < self.now.n → (get_or result.now j 0 ≡ distances self.now i j) × (get_or result.now j 0 ≤ distance_limit) }
    {
        &self.entries[i * self.n..(i + 1) * self.n]
    }

    // Score: for a pairing wx|yz the lesser of wy + xz and wz + xy, less (wx + yz).
    pub fn score(&self, w: usize, x: usize, y: usize, z: usize) -> i64
        requires { (w < self.now.n) × (x < self.now.n) × (y < self.now.n) × (z < self.now.n) }
        ensures { result ≡ score (distances self.now) w x y z }
    {
        let wy_xz = self.at(w, y) + self.at(x, z);
        let wz_xy = self.at(w, z) + self.at(x, y);
        let wx_yz = self.at(w, x) + self.at(y, z);
        less(wy_xz.min(wz_xy), wx_yz)
    }
}

// The signed difference of two sums.
pub fn less(p: u32, q: u32) -> i64
    ensures { result ≡ sub_ℕ p q }
{
    i64::from(p) - i64::from(q)
}

// Matrix rule: zero is not above zero, so a tie does not support.
pub fn supports(score: i64) -> bool
    ensures { result ≡ lt_z (pos 0) score }
{
    score > 0
}

// The lesser of a weight and one more score; 0 where the score does not support.
fn lowered(best: u32, score: i64) -> u32
    ensures { result ≡ min (above score) best }
{
    score.clamp(0, i64::from(best)) as u32
}

// The same for the score p less q.
pub fn lowered_by(best: u32, p: u32, q: u32) -> u32
    ensures { result ≡ min (above (sub_ℕ p q)) best }
{
    lowered(best, less(p, q))
}
