// A record's list as Newick text on standard output: a matrix or a table is run, a tree is read. Document 02, §2.
#![tactic(auto)]

ghost use Rattle.std.specs.Prelude.{◌≡◌};
ghost use Rattle.statement.specs.Replies.{reading_said};
ghost use Rattle.newick_out.specs.Lists.{list_in};

use job::run_record;
use newick_write::{newick_length, write_newick};
use print::say;
use reasons::refused;
use record_find::find_record;
use statement::{Kind, Reason, Refusal, Splits};
use std::io;
use tree_read::read_tree;

// The list of the record that the bytes begin with, or its refusal.
pub fn list_in(bytes: &[u8]) -> Result<Splits, Refusal>
    ensures { reading_said result ≡ list_in bytes.now }
{
    let found = find_record(bytes)?;
    match found.kind {
        Kind::Tree => read_tree(found.taxa, found.body),
        Kind::Matrix | Kind::Table => Ok(run_record(bytes)?.list),
    }
}

// The text of a list, at the start of a slice.
fn put_text<'a>(n: usize, list: Splits, out: &'a mut [u8]) -> Result<&'a [u8], Refusal> {
    let len = newick_length(n, list)?;
    let text = out.get_mut(..len).ok_or(Reason::Output.at(0))?;
    write_newick(n, list, text)?;
    Ok(text)
}

// The text of a list, and a line feed. No text of a well-formed list has more than 65,535 bytes (`newick_short`).
pub fn say_text(rt: &impl Print, n: usize, list: Splits) -> io::Result<()> {
    let mut out = [0u8; 65536];
    if let Ok(text) = put_text(n, list, &mut out) {
        say(rt, text)?;
    }
    println!(rt)
}

// What `to_newick` says of the bytes: the text of the list, or why there is none.
pub fn answer(rt: &impl Print, bytes: &[u8]) -> io::Result<()> {
    match list_in(bytes) {
        Ok(list) => say_text(rt, list.taxa, list),
        Err(refusal) => refused(rt, refusal),
    }
}
