// The words of four bytes of a matrix body, little-endian (document 01, "Records in a file").
#![tactic(auto)]

ghost use Rattle.std.specs.Prelude.{◌≡◌, ◌*◌, ◌≤◌, length, take};
ghost use Rattle.statement.specs.Bytes.{from_bytes};

// The words of a body that has so many of them, put to the front of `words`.
pub fn read_words(count: usize, body: &[u8], words: &mut [u32; 4096])
    requires { (count ≤ 4096) × (length body.now ≡ 4 * count) }
    ensures { take count words.new ≡ from_bytes body.now }
{
    for e in 0..count {
        words[e] = tree_body::word_at(body, 4 * e);
    }
}

// The same, in an array of their own.
pub fn words_of(count: usize, body: &[u8]) -> [u32; 4096]
    requires { (count ≤ 4096) × (length body.now ≡ 4 * count) }
    ensures { take count result ≡ from_bytes body.now }
{
    let mut words = [0u32; 4096];
    read_words(count, body, &mut words);
    words
}
