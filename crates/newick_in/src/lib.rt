// A Newick text of n taxa to the record of its tree, or to one line that says what is wrong with it. Document 02, §2.
#![tactic(auto)]

ghost use Rattle.std.specs.Prelude.{◌≡◌, ◌≤◌, IfOk, IfSome, OnErr, [], length, take, get_or};
ghost use Rattle.statement.specs.Outcomes.{Done};
ghost use Rattle.statement.specs.Record.{record_length};
ghost use Rattle.statement.specs.Calls.{write_tree};
ghost use Rattle.numerals.specs.Numerals.{numbers_in};
ghost use Rattle.newick_in.specs.Records.{Covers, IsPrefixLen, record_of_list, record_of_text};

use numerals::{Fault, count, first_fault, number_of};
use statement::{Kind, Splits};
use std::io;

// The number of taxa that a word says, from 2 to 64.
pub fn taxa_in(word: &[u8]) -> Option<usize>
    ensures { IfSome result (λ n. (2 ≤ n) × (n ≤ 64) × (n ≡ get_or (numbers_in word.now) 0 0)) }
{
    if first_fault(Fault::Strange, word) != word.len() || count(word) != 1 {
        return None;
    }
    let n = number_of(word, 0);
    if n < 2 || n > 64 {
        return None;
    }
    Some(n as usize)
}

// The record of a list's tree into a slice of its length, by way of its body.
fn put_record(n: usize, list: Splits, body: &mut [u8], out: &mut [u8])
    requires { (n ≤ 64) × (write_tree n list body.old ≡ Done) × (length out.old ≡ record_length (length body.old)) }
    ensures { out.new ≡ record_of_list n list }
{
    tree_write::write_tree(n, list, body).unwrap();
    record_write::lay_out(Kind::Tree.code(), n as u8, body, out);
}

// The same at the start of a slice, and the record's length.
fn put_list(n: usize, list: Splits, out: &mut [u8]) -> usize
    requires { Covers n list × (1024 ≤ length out.old) }
    ensures { (take result out.new ≡ record_of_list n list) × IsPrefixLen result out.new }
{
    let len = 1 + n + 5 * list.rows;
    let whole = record_find::record_length(len);
    let mut body = [0u8; 4096];
    put_record(n, list, &mut body[..len], &mut out[..whole]);
    whole
}

// The answer to a text: its tree's record at the start of `out`, and how long it is; or 0, and a line that says what is wrong. `more` says that the
// text goes on behind its 65,536 bytes. Where that line cannot be written, the error, and `out` is as it was: an accepted text never meets it.
pub fn answer(
    rt: &impl Print,
    n: usize,
    text: &[u8],
    more: bool,
    out: &mut [u8],
) -> io::Result<usize>
    requires { 1024 ≤ length out.old }
    ensures ok { IfOk result (λ len. (take len out.new ≡ record_of_text n text.now) × IsPrefixLen len out.new) }
    ensures err { OnErr result (out.new ≡ out.old) }
    ensures err_refused { OnErr result (record_of_text n text.now ≡ []) }
{
    match newick_read::read_newick(n, text) {
        Ok(list) => Ok(put_list(n, list, out)),
        Err(refusal) => {
            newick_reasons::refused(rt, n, refusal, text, more)?;
            Ok(0)
        }
    }
}
