// Groups of taxa as the bits of a number: what the crates that try splits ask of one.
// Document 01, "Scores and splits": Row. Document 02 §7: groups of one.
#![tactic(auto)]

ghost use Rattle.std.specs.Prelude.{◌≡◌, cond, not, ◌&&◌, ◌||◌, ◌+◌, ◌^◌, ◌≤◌, ◌<◌, eqb, length};
ghost use Rattle.statement.specs.Cluster.{bit};
ghost use Rattle.statement.specs.Growing.{alone};
ghost use Rattle.bits.specs.Members.{Members, Side};

// Whether taxon i is on a's side of the split c.
pub fn same_side(c: u64, a: usize, i: usize) -> bool
    requires { (a < 64) × (i < 64) }
    ensures { result ≡ eqb (bit c i) (bit c a) }
{
    (c >> i) % 2 == (c >> a) % 2
}

// Whether taxon i is another one on u's side of the split c.
pub fn beside(c: u64, u: usize, i: usize) -> bool
    requires { (u < 64) × (i < 64) }
    ensures { result ≡ (eqb (bit c i) (bit c u) && not (eqb i u)) }
{
    same_side(c, u, i) && i != u
}

// Whether u is the only taxon of its group, in the split c of the first k taxa.
pub fn is_alone(k: usize, c: u64, u: usize) -> bool
    requires { (k ≤ 64) × (u < k) }
    ensures { result ≡ alone k c u }
{
    !places::somewhere(k, |i| beside(c, u, i))
}

// Whether two taxa of a group are a pair that it gives: two different ones, or one that is alone there.
pub fn is_pair(single: bool, y: usize, z: usize) -> bool
    ensures { result ≡ (not (eqb y z) || single) }
{
    y != z || single
}

// The cluster of one taxon.
pub fn single(k: usize) -> u64
    requires { k < 64 }
    ensures { result ≡ 2 ^ k }
{
    1 << k
}

// The taxa of the first k on the other side than a, in order: the first numbers of `taxa`, as many as this gives.
pub fn members(k: usize, a: usize, c: u64, taxa: &mut [usize; 64]) -> usize
    requires { (k ≤ 64) × (a < 64) }
    ensures { Members k a c taxa.new result }
{
    let mut count = 0;
    for y in 0..k {
        taxa[count] = y;
        count += usize::from(!same_side(c, a, y));
    }
    count
}

// The same as a slice.
pub fn others(k: usize, a: usize, c: u64, taxa: &mut [usize; 64]) -> &[usize]
    requires { (k ≤ 64) × (a < 64) }
    ensures { Members k a c result.now (length result.now) }
{
    let count = members(k, a, c, taxa);
    &taxa[..count]
}

// The number of the group of the taxa below a that are on a's side.
pub fn side_of(a: usize, c: u64) -> u64
    requires { a < 64 }
    ensures { Side a c result }
{
    let all = single(a) - 1;
    let low = c & all;
    if (c >> a) % 2 == 1 { low } else { all - low }
}
