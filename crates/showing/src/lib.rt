// A record, in plain words: what it is, how many taxa, whether it is accepted or why not, and for a tree its groups as taxon numbers.
#![tactic(auto)]

use print::rows_of;
use reasons::refused;
use record_find::{Record, find_record};
use record_write::check_matrix;
use statement::{Kind, Refusal, Splits};
use std::io;
use table::Table;
use tree_read::read_tree;

// What a record of this kind is called.
fn title(kind: Kind) -> &'static str {
    match kind {
        Kind::Matrix => "matrix",
        Kind::Table => "table of fours",
        Kind::Tree => "tree",
    }
}

// Whether a body is accepted, or why not.
fn verdict(rt: &impl Print, said: Result<(), Refusal>) -> io::Result<()> {
    match said {
        Ok(()) => println!(rt; "accepted"),
        Err(refusal) => refused(rt, refusal),
    }
}

// The rows of a tree's list, a line for each: its group's taxa and its weight.
fn groups(rt: &impl Print, list: &Splits) -> io::Result<()> {
    for (cluster, weight) in rows_of(list) {
        print!(rt; "group")?;
        for i in (0..64u32).filter(|i| (cluster >> *i) & 1 == 1) {
            print!(rt; " {i}")?;
        }
        println!(rt; ", weight {weight}")?;
    }
    Ok(())
}

// A tree's body: accepted, with its groups, or why not.
fn tree(rt: &impl Print, read: Result<Splits, Refusal>) -> io::Result<()> {
    match read {
        Ok(list) => {
            verdict(rt, Ok(()))?;
            groups(rt, &list)
        }
        Err(refusal) => refused(rt, refusal),
    }
}

// A record that was found: what kind it is, of how many taxa, and what its body is.
fn found(rt: &impl Print, record: Record) -> io::Result<()> {
    let n = record.taxa;
    print!(rt; "{} of {n} taxa: ", title(record.kind))?;
    match record.kind {
        Kind::Matrix => verdict(rt, check_matrix(n, record.body)),
        Kind::Table => verdict(rt, Table::read(n, record.body).map(|_| ())),
        Kind::Tree => tree(rt, read_tree(n, record.body)),
    }
}

// What the bytes begin with.
pub fn describe(rt: &impl Print, bytes: &[u8]) -> io::Result<()> {
    match find_record(bytes) {
        Ok(record) => found(rt, record),
        Err(refusal) => {
            print!(rt; "no record: ")?;
            refused(rt, refusal)
        }
    }
}
