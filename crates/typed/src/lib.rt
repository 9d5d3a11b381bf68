// A matrix typed as numbers, full or its lower half: what is wrong with the text and where, and the body of the matrix's record.
#![tactic(auto)]

ghost use Rattle.std.specs.Prelude.{◌+◌, ◌*◌, ◌/◌, ◌%◌, ◌≤◌, ◌<◌, ◌≡◌, length, get_or};
ghost use Rattle.statement.specs.Bytes.{to_bytes};
ghost use Rattle.typed.specs.Typed.{values_in, half, is_full, value_for, entries_of, said_of, body_said, body_written, entry_place, Small, Taken};

use numerals::{count, first_fault, number_of, start_of};
use tree_write::put_four;

// What is wrong with a text. Places are bytes of the text, from 0.
#[derive(Clone, Copy, PartialEq, Eq, Debug)]
pub enum Mistake {
    // A byte that is no digit and no space, and its place.
    Strange(usize),
    // The place of a number above 4,294,967,295.
    TooLarge(usize),
    // The place of an n that is not from 2 to 64; the end of a text without a number.
    Taxa(usize),
    // Too few or too many numbers: n, how many stand behind it, and the place of the first one too many for a full matrix, else the end.
    Count {
        taxa: usize,
        found: usize,
        place: usize,
    },
    // The lent slice does not have the length of the body.
    Room,
}

// How the entries of n taxa are typed: all of them, or the lower half without the diagonal.
#[derive(Clone, Copy, PartialEq, Eq, Debug)]
struct Shape {
    taxa: usize,
    full: bool,
    ghost two: { 2 ≤ taxa },
    ghost few: { taxa ≤ 64 },
}

// How many numbers stand behind the first.
fn found(text: &[u8]) -> usize
    ensures { result ≡ length (values_in text.now) }
{
    count(text).saturating_sub(1)
}

// How many entries the rows 0 to i - 1 of a lower half have.
pub fn half_of(i: usize) -> usize
    requires { i ≤ 64 }
    ensures { result ≡ half i }
{
    i * i.saturating_sub(1) / 2
}

// The n of a text's matrix, else what is wrong with it, in the order of `Mistake`.
pub fn check(text: &[u8]) -> Result<usize, Mistake>
    ensures { result ≡ said_of text.now }
{
    let strange = first_fault(numerals::Fault::Strange, text);
    if strange < text.len() {
        return Err(Mistake::Strange(strange));
    }
    let large = first_fault(numerals::Fault::TooLarge, text);
    if large < text.len() {
        return Err(Mistake::TooLarge(large));
    }
    let n = number_of(text, 0) as usize;
    if n < 2 || n > 64 {
        return Err(Mistake::Taxa(start_of(text, 0)));
    }
    let values = found(text);
    if values == n * n || values == half_of(n) {
        Ok(n)
    } else {
        Err(Mistake::Count {
            taxa: n,
            found: values,
            place: start_of(text, 1 + n * n),
        })
    }
}

impl Shape {
    // That of an accepted text.
    fn of(text: &[u8], n: usize) -> Shape
        requires { Taken n text.now }
        ensures taxa { result.taxa ≡ n }
        ensures full { result.full ≡ is_full n (values_in text.now) }
    {
        Shape {
            taxa: n,
            full: found(text) == n * n,
        }
    }

    // Which of the values entry e is.
    fn value_for(self, e: usize) -> usize
        requires { e < self.taxa * self.taxa }
        ensures value { result ≡ value_for self.taxa self.full e }
        ensures small { result < 8192 }
    {
        if self.full {
            return e;
        }
        let i = e / self.taxa;
        let j = e % self.taxa;
        if i < j {
            half_of(j) + i
        } else {
            half_of(i) + j
        }
    }

    // Entry e of the matrix that is typed so.
    fn entry(self, text: &[u8], e: usize) -> u32
        requires { (e < self.taxa * self.taxa) × Small text.now × (self.full ≡ is_full self.taxa (values_in text.now)) }
        ensures { result ≡ get_or (entries_of self.taxa (values_in text.now)) e 0 }
    {
        if !self.full && e / self.taxa == e % self.taxa {
            0
        } else {
            number_of(text, 1 + self.value_for(e)) as u32
        }
    }
}

// The body of the matrix's record, into a slice of its length.
fn put_body(text: &[u8], n: usize, out: &mut [u8])
    requires { Taken n text.now × (length out.old ≡ 4 * (n * n)) }
    ensures { out.new ≡ to_bytes (entries_of n (values_in text.now)) }
{
    let shape = Shape::of(text, n);
    for e in 0..n * n {
        put_four(shape.entry(text, e), 4 * e, out);
    }
}

// The body of the typed matrix's record, written into a slice of its exact length. What is refused leaves the slice as it was.
pub fn write_body(text: &[u8], out: &mut [u8]) -> Result<usize, Mistake>
    ensures value { result ≡ body_said text.now out.old }
    ensures out_after { out.new ≡ body_written text.now out.old }
{
    let n = check(text)?;
    if out.len() != 4 * (n * n) {
        return Err(Mistake::Room);
    }
    put_body(text, n, out);
    Ok(n)
}

// The place in the text of entry e of an accepted matrix; the end of the text where there is no such entry.
pub fn entry_place(text: &[u8], e: usize) -> usize
    ensures { result ≡ entry_place text.now e }
{
    match check(text) {
        Ok(n) if e < n * n => start_of(text, 1 + Shape::of(text, n).value_for(e)),
        _ => text.len(),
    }
}
