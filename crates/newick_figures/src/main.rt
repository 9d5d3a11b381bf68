// Newick texts, read, and the text that is written of what was read. A line of data/texts0, texts1, .. is a case: the number of taxa, a space, the text.
// The files in data/ and the expected output are made by tests/make_vectors.py from the documents alone.
#![tactic(auto)]

ghost use Rattle.std.specs.Prelude.{◌≤◌};

use lines::{behind, find};
use statement::Splits;
use std::io;
use std::rt::Files;

// How many files there are, ten at most.
const FILES: u8 = 1;

// A list: its taxa and rows, the rows, and its text.
fn accepted(rt: &impl Print, n: usize, list: Splits) -> io::Result<()> {
    println!(rt; "taxa {} rows {}", list.taxa, list.rows)?;
    print::rows(rt, &list)?;
    newick_out::say_text(rt, n, list)
}

// What the reader says of a text.
fn read(rt: &impl Print, n: usize, text: &[u8]) -> io::Result<()> {
    match newick_read::read_newick(n, text) {
        Ok(list) => accepted(rt, n, list),
        Err(refusal) => print::refusal(rt, refusal),
    }
}

// A case: its index, and what is said of it.
fn case(rt: &impl Print, index: u64, line: &[u8]) -> io::Result<()> {
    print!(rt; "{index}: ")?;
    let n = numerals::number_at(line, 0);
    let start = behind(line, find(line, 0, b' '));
    read(rt, n as usize, &line[start..])
}

// The cases of a file, counted on from `first`; the number behind the last.
fn cases(rt: &impl Print, file: &[u8], first: u64) -> io::Result<u64> {
    let mut index = first;
    for line in file.split_inclusive(|&b| b == b'\n') {
        case(rt, index, line.strip_suffix(b"\n").unwrap_or(line))?;
        index = index.wrapping_add(1);
    }
    Ok(index)
}

// File i.
fn file(rt: &(impl Print + Files), i: u8, first: u64) -> io::Result<u64>
    requires { i ≤ 9 }
{
    let name = [b't', b'e', b'x', b't', b's', b'0' + i];
    let mut bytes = [0u8; 65536];
    let got = input::read_file(rt, &name, &mut bytes)?;
    cases(rt, &bytes[..got], first)
}

fn main(rt: HostRuntime) -> io::Result<()> {
    let mut first = 0;
    for i in 0..FILES {
        first = file(&rt, i, first)?;
    }
    Ok(())
}
