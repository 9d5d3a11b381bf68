// Finding a record at the start of a stretch of bytes: why it is refused, or its kind, its n and its body as part of the caller's own bytes.
// Document 01, "Records in a file" and "Refusal numbers".
#![tactic(auto)]

ghost use Rattle.std.specs.Prelude.{◌≡◌, ◌+◌, ◌^◌, ◌<◌, ◌≤◌, true, length, ◌==◌, IfOk};
ghost use Rattle.statement.specs.Bytes.{word_sum};
ghost use Rattle.statement.specs.Refusals.{outcome_of};
ghost use Rattle.statement.specs.Record.{kinds, is_kind, fits_kind, length_in, record_length, pad_in, taken_checks, body_in};
ghost use Rattle.statement.specs.Calls.{find_record};
ghost use Rattle.statement.specs.Said.{code_of_kind};
ghost use Rattle.statement.specs.Replies.{said};
ghost use Rattle.record_find.specs.Taken.{kinds_taken};
ghost use Rattle.record_find.specs.Stretch.{body_start, body_length};
ghost use Rattle.record_find.specs.Held.{Holds};

use statement::{Kind, Reason, Refusal};

// All 16-bit words added with wrapping; a last odd byte is no word.
pub fn word_sum(bytes: &[u8]) -> u16
    ensures { result ≡ word_sum bytes.now }
{
    let mut sum: u16 = 0;
    for pair in bytes.chunks_exact(2) {
        let word = u16::from_le_bytes([pair[0], pair[1]]);
        sum = sum.wrapping_add(word);
    }
    sum
}

// The body length, in four bytes of the header.
pub fn length_in(bytes: &[u8]) -> usize
    requires { 8 ≤ length bytes.now }
    ensures { (result ≡ length_in bytes.now) × (result < 2 ^ 32) }
{
    u32::from_le_bytes([bytes[4], bytes[5], bytes[6], bytes[7]]) as usize
}

// The length of a whole record with a body of this length.
pub fn record_length(len: usize) -> usize
    requires { len < 2 ^ 63 }
    ensures { result ≡ record_length len }
{
    8 + len + len % 2 + 2
}

// The kinds that a call takes.
#[derive(Clone, Copy)]
pub struct Taken {
    pub matrices: bool,
    pub tables: bool,
    pub trees: bool,
}

impl Taken {
    // Whether this kind is one of those taken.
    fn takes(self, kind: Kind) -> bool
        ensures { result ≡ is_kind (kinds_taken self) (code_of_kind kind) }
    {
        match kind {
            Kind::Matrix => self.matrices,
            Kind::Table => self.tables,
            Kind::Tree => self.trees,
        }
    }
}

// Whether n taxa allow a body of this length in a record of this kind.
pub fn length_fits(kind: u8, n: usize, len: usize) -> bool
    requires { (2 ≤ n) × (n ≤ 64) }
    ensures { result ≡ fits_kind kinds kind n len }
{
    match Kind::coded(kind) {
        Some(Kind::Matrix) => len == 4 * (n * n),
        Some(Kind::Table) => len == table::fours(n),
        Some(Kind::Tree) => tree_check::tree_fits(n, len),
        None => false,
    }
}

// Whether the pad byte is zero, or there is none.
fn pad_is_zero(bytes: &[u8], len: usize) -> bool
    requires { (len ≡ length_in bytes.now) × (record_length len ≤ length bytes.now) }
    ensures { result ≡ (pad_in bytes.now == 0) }
{
    len % 2 == 0 || bytes[8 + len] == 0
}

// A record that is found. Its body lies in the caller's own bytes, and is as long as its kind and n say.
#[derive(Clone, Copy)]
pub struct Record<'a> {
    pub kind: Kind,
    pub taxa: usize,
    pub body: &'a [u8],
    ghost few: { (2 ≤ taxa) × (taxa ≤ 64) },
    ghost fits: { fits_kind kinds (code_of_kind kind) taxa (length body.now) ≡ true },
}

// A record found, with the refusals up to its sum word, in their order: 16 by the 8 bytes, 15, 17, 1, 2, 16 by the whole, 18.
pub fn find_record<'a>(bytes: &'a [u8]) -> Result<Record<'a>, Refusal>
    ensures said { said result ≡ find_record bytes.now }
    ensures ok { IfOk result (λ r. Holds bytes.entry r.kind r.taxa r.body) }
{
    if bytes.len() < 8 {
        return Err(Reason::Cut.at(0));
    }
    if bytes[0] != 0x53 || bytes[1] != 0x70 {
        return Err(Reason::Mark.at(0));
    }
    let kind = Kind::coded(bytes[2]).ok_or(Reason::Kind.at(0))?;
    let taxa = usize::from(bytes[3]);
    if taxa < 2 || taxa > 64 {
        return Err(Reason::Taxa.at(0));
    }
    let len = length_in(bytes);
    if !length_fits(kind.code(), taxa, len) {
        return Err(Reason::Length.at(0));
    }
    let whole = record_length(len);
    if bytes.len() < whole {
        return Err(Reason::Cut.at(0));
    }
    if !pad_is_zero(bytes, len) || word_sum(&bytes[..whole]) != 0 {
        return Err(Reason::Sum.at(0));
    }
    Ok(Record {
        kind,
        taxa,
        body: &bytes[8..8 + len],
    })
}

// The same for a call that takes only some kinds: 17, after 18, for a known kind that it doesn't take.
pub fn find_taken<'a>(bytes: &'a [u8], taken: Taken) -> Result<Record<'a>, Refusal>
    ensures said { said result ≡ outcome_of (taken_checks (kinds_taken taken) bytes.now) }
    ensures ok { IfOk result (λ r. Holds bytes.entry r.kind r.taxa r.body) }
{
    let found = find_record(bytes)?;
    if !taken.takes(found.kind) {
        return Err(Reason::Kind.at(0));
    }
    Ok(found)
}

// The body, as that stretch of the caller's own bytes; a refused finding gives an empty stretch.
pub fn body_of<'a>(bytes: &'a [u8]) -> &'a [u8]
    ensures contents { result.now ≡ body_in bytes.now }
    ensures pointer { (result.ref_ptr.0 ≡ bytes.entry.ref_ptr.0) × (result.ref_ptr.1 ≡ bytes.entry.ref_ptr.1 + body_start bytes.now) }
    ensures length { length result.now ≡ body_length bytes.now }
{
    match find_record(bytes) {
        Ok(found) => found.body,
        Err(_) => &bytes[..0],
    }
}
