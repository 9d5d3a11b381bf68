// Why a Newick text is refused, in plain words: document 02's 19, 20, 14, 12 and 13, by the byte at the refusal's place and what stands before it.
#![tactic(auto)]

use newick_hints::{byte_before, level_at, lowest_missing, semicolon};
use numerals::{byte_at, number_at};
use print::Shown;
use statement::{Reason, Refusal};
use std::io;

// What is wrong with a byte behind another one, or behind none, with `depth` brackets open: one of the grammar's bytes in a wrong place, or a byte that
// the grammar has nowhere. None where there is no better reason than that it cannot stand there.
fn hint(b: u8, before: Option<u8>, depth: usize) -> Option<&'static str> {
    match (b, before) {
        (b'(', Some(b'(' | b',')) if depth > 129 => Some("brackets are nested more than 130 deep"),
        (b'0'..=b'9', Some(b'0')) => Some("a number has no leading zero"),
        (b'0'..=b'9', Some(b')')) => Some("no number is taken right behind a bracket"),
        (b',' | b')', Some(b'0'..=b'9' | b')' | b':')) if depth > 0 => Some(
            "a length is missing: a colon and a whole number",
        ),
        (b':', Some(b')')) => Some(
            "no length is taken around the whole: a semicolon ends the text",
        ),
        (b';', _) if depth > 0 => Some("a bracket is still open"),
        (b' ' | b'\t' | b'\n' | b'\r', _) => Some("no spaces are taken"),
        (b'\'' | b'"', _) => Some("no quotes are taken: a taxon is its number"),
        (b'.', _) => Some("a length is a whole number"),
        (b'-' | b'+', _) => Some("no sign is taken: a length is 0 or above"),
        (b'[', _) => Some("no comments are taken"),
        (b'A'..=b'Z' | b'a'..=b'z' | b'_', Some(b'0'..=b'9')) => Some("a number has digits only"),
        (b'A'..=b'Z' | b'a'..=b'z' | b'_', _) => Some("no names are taken: a taxon is its number"),
        _ => None,
    }
}

// 19: the text's end, a line feed that ends it, or a byte. With `more` the text goes on.
fn say_outside(rt: &impl Print, text: &[u8], p: usize, more: bool) -> io::Result<()> {
    match text.get(p..).unwrap_or(&[]) {
        [] if more => print!(rt; "the text goes on behind 65,536 bytes"),
        [] => print!(rt; "the text ends before its semicolon"),
        [b'\n'] if !more => print!(rt; "the text ends before its semicolon"),
        [b, ..] => match hint(*b, byte_before(text, p), level_at(text, p).depth) {
            Some(words) => print!(rt; "{words}"),
            None => print!(rt; "{} cannot stand here", Shown(*b)),
        },
    }
}

// 20: at the semicolon a taxon is missing; elsewhere one came before, or is too large.
fn say_taxon(rt: &impl Print, n: usize, text: &[u8], p: usize) -> io::Result<()> {
    if byte_at(text, p) == b';' {
        print!(rt;
            "taxon {} is missing: a text has each taxon once, from 0 to {}",
            lowest_missing(text, p, n).unwrap_or(n),
            n.wrapping_sub(1)
        )
    } else if number_at(text, p) < n as u64 {
        print!(rt; "this taxon came before")
    } else {
        print!(rt; "this taxon is not below {n}")
    }
}

// 13: the two branches of a root, or others.
fn alike(text: &[u8], p: usize) -> &'static str {
    let here = level_at(text, p);
    let all = level_at(text, semicolon(text));
    if here.depth == 1 && all.commas == 1 {
        "the root has two branches. Give one of them the sum of both lengths and put the children of the other at the root \
        (or give the other 0): ((0:1,1:2):3,(2:4,3:5):6); becomes (0:1,1:2,(2:4,3:5):9);"
    } else {
        "make one edge of them with the sum of both lengths"
    }
}

// Why a text of n taxa is refused.
fn say_reason(
    rt: &impl Print,
    n: usize,
    refusal: Refusal,
    text: &[u8],
    more: bool,
) -> io::Result<()> {
    let place = refusal.place;
    match refusal.reason {
        Reason::Text => say_outside(rt, text, place, more),
        Reason::Taxon => say_taxon(rt, n, text, place),
        Reason::Weight => print!(rt; "this length is above 2,000,000"),
        Reason::Edge => print!(rt;
            "no taxon lies beyond this edge: take the brackets and the length around the whole away"
        ),
        Reason::Twin => print!(rt; "two edges part the taxa alike: {}", alike(text, place)),
        reason => print!(rt; "{reason}"),
    }
}

// A refusal of a text of n taxa: its number, its place and its reason. `more` says that the text goes on behind its 65,536 bytes.
pub fn refused(
    rt: &impl Print,
    n: usize,
    refusal: Refusal,
    text: &[u8],
    more: bool,
) -> io::Result<()> {
    print!(rt; "{refusal}: ")?;
    say_reason(rt, n, refusal, text, more)?;
    println!(rt)
}
