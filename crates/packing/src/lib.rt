// For people who have typed numbers and no records: a text of whole numbers, n and then a full matrix or its lower half, gives the matrix's record on
// standard output; or one line that says what is wrong, with its line and column, both from 1.
#![tactic(auto)]

ghost use Rattle.std.specs.Prelude.{◌*◌, ◌≡◌, ◌≤◌, Ok, length};
ghost use Rattle.statement.specs.Bytes.{to_bytes};
ghost use Rattle.statement.specs.Calls.{write_record, record_written};
ghost use Rattle.statement.specs.Replies.{said};
ghost use Rattle.typed.specs.Typed.{values_in, entries_of, said_of};

use numerals::{byte_at, place_of};
use print::{Shown, say};
use statement::{Kind, Reason, Refusal};
use std::io;
use typed::{Mistake, half_of};

// Too few or too many numbers for n taxa.
fn say_count(rt: &impl Print, n: usize, found: usize) -> io::Result<()>
    requires { n ≤ 64 }
{
    let half = half_of(n);
    println!(rt;
        "{found} distances for {n} taxa: a full matrix has {}, a lower half {half}",
        n * n
    )
}

// What the matrix itself is refused for: document 01's numbers 3, 4 and 5.
fn wrong_entry(reason: Reason) -> &'static str {
    match reason {
        Reason::Diagonal => "diagonal not 0",
        Reason::Distance => "distance above 1,000,000",
        _ => "the two entries of a pair differ",
    }
}

// The record of the matrix of n taxa that the text has, into `out`, by way of its body.
fn write_typed(text: &[u8], n: usize, body: &mut [u8], out: &mut [u8]) -> Result<(), Refusal>
    requires { (Ok n ≡ said_of text.now) × (length body.old ≡ 4 * (n * n)) }
    ensures value { said result ≡ write_record 1 n (to_bytes (entries_of n (values_in text.now))) out.old }
    ensures out_after { out.new ≡ record_written 1 n (to_bytes (entries_of n (values_in text.now))) out.old }
{
    typed::write_body(text, body).unwrap();
    record_write::write_record(Kind::Matrix.code(), n, body, out)
}

// That record to standard output, or what the matrix is refused for; in buffers of its own: a body of 4 bytes for each entry, and a record of 10 more.
#[tactic(auto, using(crate::proofs::Sizes::fits))]
fn pack(rt: &impl Print, text: &[u8], n: usize) -> io::Result<()>
    requires { Ok n ≡ said_of text.now }
{
    let mut body = [0u8; 65536];
    let mut out = [0u8; 65536];
    let len = 4 * (n * n);
    let out = &mut out[..len + 10];
    match write_typed(text, n, &mut body[..len], out) {
        Ok(()) => say(rt, out),
        Err(refusal) => {
            let place = place_of(text, typed::entry_place(text, refusal.place));
            println!(rt; "{place}: {}", wrong_entry(refusal.reason))
        }
    }
}

// What is wrong with a text, with its place.
fn say_mistake(rt: &impl Print, text: &[u8], mistake: Mistake) -> io::Result<()>
    requires { Err mistake ≡ said_of text.now }
{
    match mistake {
        Mistake::Strange(p) => println!(rt;
            "{}: {} is no digit",
            place_of(text, p),
            Shown(byte_at(text, p))
        ),
        Mistake::TooLarge(p) => println!(rt; "{}: number above 4,294,967,295", place_of(text, p)),
        Mistake::Taxa(p) if p < text.len() => println!(rt;
            "{}: number of taxa not from 2 to 64",
            place_of(text, p)
        ),
        Mistake::Taxa(p) => println!(rt; "{}: no number of taxa", place_of(text, p)),
        Mistake::Count { taxa, found, place } => {
            print!(rt; "{}: ", place_of(text, place))?;
            say_count(rt, taxa, found)
        }
        Mistake::Room => Ok(()),
    }
}

// The answer to a text.
pub fn answer(rt: &impl Print, text: &[u8]) -> io::Result<()> {
    match typed::check(text) {
        Ok(n) => pack(rt, text, n),
        Err(mistake) => say_mistake(rt, text, mistake),
    }
}

// The answer to a text that goes on: it might be cut within a number.
pub fn too_long(rt: &impl Print, text: &[u8]) -> io::Result<()> {
    println!(rt;
        "{}: the text goes on behind 65,536 bytes",
        place_of(text, text.len())
    )
}
