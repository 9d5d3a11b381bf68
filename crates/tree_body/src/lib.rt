// The parts of a tree's body: m, m links and n homes (a byte each), then m weights of four bytes. Document 01, "Records in a file".
#![tactic(auto)]

ghost use Rattle.std.specs.Prelude.{◌≡◌, ◌+◌, ◌≤◌, ◌<◌, length, take, drop};
ghost use Rattle.tree_body.specs.Words.{word_at};

// A byte as a number of a vertex.
pub fn vertex(x: u8) -> usize
    ensures { result ≡ x }
{
    usize::from(x)
}

// The m links.
pub fn links_in(m: usize, body: &[u8]) -> &[u8]
    requires { m < length body.now }
    ensures { result.now ≡ take m (drop 1 body.now) }
{
    &body[1..1 + m]
}

// The n homes.
pub fn homes_in(n: usize, m: usize, body: &[u8]) -> &[u8]
    requires { 1 + m + n ≤ length body.now }
    ensures { result.now ≡ take n (drop (1 + m) body.now) }
{
    &body[1 + m..1 + m + n]
}

// The bytes of the weights.
pub fn weights_in(n: usize, m: usize, body: &[u8]) -> &[u8]
    requires { 1 + m + n ≤ length body.now }
    ensures { result.now ≡ drop (1 + m + n) body.now }
{
    &body[1 + m + n..]
}

// The word of four bytes, little-endian, at the place p.
pub fn word_at(bytes: &[u8], p: usize) -> u32
    requires { p + 3 < length bytes.now }
    ensures { result ≡ word_at bytes.now p }
{
    u32::from_le_bytes([bytes[p], bytes[p + 1], bytes[p + 2], bytes[p + 3]])
}
