// The calls that grow a list: with an allowance, and the whole run from the start, on a matrix and on a table. None asks anything of its input.
// Document 01, "Growing and the allowance" and "Refusal numbers".
#![tactic(auto)]

ghost use Rattle.std.specs.Prelude.{◌≡◌, Ok};
ghost use Rattle.statement.specs.Growing.{whole_run};
ghost use Rattle.statement.specs.Calls.{empty_list, grow_matrix, grow_table, run_matrix, run_table};
ghost use Rattle.statement.specs.Replies.{growth_said};
ghost use Rattle.run.specs.Replies.{growth_on};

use grow::{Source, grow_taxa};
use matrix::Matrix;
use splits_list::{empty, well_formed};
use statement::{Grown, Reason, Refusal, Splits};
use table::Table;

// Growth on a source: the list's check, then the growth.
fn grow<S: Source>(source: &S, s: Splits, allowance: u64) -> Result<Grown, Refusal>
    ensures { growth_said s result ≡ growth_on (S.manner source.now) (S.taxa source.now) s allowance }
{
    if !well_formed(source.most(), source.taxa(), s) {
        return Err(Reason::List.at(0));
    }
    Ok(grow_taxa(source, s, allowance))
}

// The whole run on a source: 7,751 trials always cover it.
fn run<S: Source>(source: &S) -> Grown
    ensures { growth_said (empty_list 0) (Ok result) ≡ whole_run (S.manner source.now) (S.taxa source.now) }
{
    grow_taxa(source, empty(1), 7751)
}

// Growth on a matrix.
pub fn grow_matrix(n: usize, entries: &[u32], s: Splits, allowance: u64) -> Result<Grown, Refusal>
    ensures { growth_said s result ≡ grow_matrix n entries.now s allowance }
{
    grow(&Matrix::read(n, entries)?, s, allowance)
}

// Growth on a table.
pub fn grow_table(n: usize, bytes: &[u8], s: Splits, allowance: u64) -> Result<Grown, Refusal>
    ensures { growth_said s result ≡ grow_table n bytes.now s allowance }
{
    grow(&Table::read(n, bytes)?, s, allowance)
}

// The whole run on a matrix.
pub fn run_matrix(n: usize, entries: &[u32]) -> Result<Grown, Refusal>
    ensures { growth_said (empty_list 0) result ≡ run_matrix n entries.now }
{
    Ok(run(&Matrix::read(n, entries)?))
}

// The whole run on a table.
pub fn run_table(n: usize, bytes: &[u8]) -> Result<Grown, Refusal>
    ensures { growth_said (empty_list 0) result ≡ run_table n bytes.now }
{
    Ok(run(&Table::read(n, bytes)?))
}
