// Writing a record into a lent slice: the checks of its kind, n and body, then header, body, pad and sum word (document 01, "Records in a file").
#![tactic(auto)]

ghost use Rattle.std.specs.Prelude.{◌≡◌, ◌+◌, ◌++◌, length, take};
ghost use Rattle.statement.specs.Refusals.{outcome_of};
ghost use Rattle.statement.specs.Record.{record_length, summed, record_of};
ghost use Rattle.statement.specs.Calls.{write_record, record_written};
ghost use Rattle.statement.specs.Said.{code_of_kind};
ghost use Rattle.statement.specs.Replies.{said};
ghost use Rattle.record_write.specs.Parts.{pad, input_checks};

use matrix::Matrix;
use record_find::{record_length, word_sum};
use statement::{Kind, Reason, Refusal};
use table::Table;
use tree_read::read_tree;

// The pad and the sum word, which makes all 16-bit words add to zero with wrapping.
fn put_end(len: usize, out: &mut [u8])
    requires { length out.old ≡ record_length len }
    ensures { out.new ≡ summed (take (8 + len) out.old ++ pad len) }
{
    let end = 8 + len + len % 2;
    out[8 + len..end].fill(0);
    let sum = word_sum(&out[..end]);
    out[end..].copy_from_slice(&sum.wrapping_neg().to_le_bytes());
}

// The bytes of a body into a stretch as long. One by one: with `copy_from_slice` the archive for C needs `memmove` from outside.
fn store(body: &[u8], out: &mut [u8])
    requires { length out.old ≡ length body.now }
    ensures { out.new ≡ body.now }
{
    for i in 0..body.len() {
        out[i] = body[i];
    }
}

// A whole record into a slice of its length: the header, the body, then pad and sum word.
pub fn lay_out(kind: u8, n: u8, body: &[u8], out: &mut [u8])
    requires { length out.old ≡ record_length (length body.now) }
    ensures { out.new ≡ record_of kind n body.now }
{
    let len = body.len();
    out[..4].copy_from_slice(&[0x53, 0x70, kind, n]);
    out[4..8].copy_from_slice(&len.to_le_bytes()[..4]);
    store(body, &mut out[8..8 + len]);
    put_end(len, out);
}

// Refusals 1 to 5 of a matrix whose entries are words of four bytes.
pub fn check_matrix(n: usize, body: &[u8]) -> Result<(), Refusal>
    ensures { said result ≡ outcome_of (input_checks 1 n body.now) }
{
    if n < 2 || n > 64 {
        return Err(Reason::Taxa.at(0));
    }
    let count = n * n;
    if body.len() != 4 * count {
        return Err(Reason::Length.at(0));
    }
    let mut words = [0; 4096];
    words::read_words(count, body, &mut words);
    Matrix::read(n, &words[..count]).map(|_| ())
}

// The checks of a body of this kind: 1, 2 and its own.
fn check(kind: Kind, n: usize, body: &[u8]) -> Result<(), Refusal>
    ensures { said result ≡ outcome_of (input_checks (code_of_kind kind) n body.now) }
{
    match kind {
        Kind::Matrix => check_matrix(n, body),
        Kind::Table => Table::read(n, body).map(|_| ()),
        Kind::Tree => read_tree(n, body).map(|_| ()),
    }
}

// A record written into a slice of its exact length: 17 first, for an unknown kind; then 1, 2, the body's own checks, and 7 last.
// A refusal leaves the slice as it was.
pub fn write_record(kind: u8, n: usize, body: &[u8], out: &mut [u8]) -> Result<(), Refusal>
    ensures reply { said result ≡ write_record kind n body.now out.old }
    ensures contents { out.new ≡ record_written kind n body.now out.old }
{
    let kind = Kind::coded(kind).ok_or(Reason::Kind.at(0))?;
    check(kind, n, body)?;
    if out.len() != record_length(body.len()) {
        return Err(Reason::Output.at(0));
    }
    lay_out(kind.code(), n as u8, body, out);
    Ok(())
}
