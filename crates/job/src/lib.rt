// The main job: a record of a matrix or a table, found, read and run. Document 01, "Figures to check against": the program `splits`.
#![tactic(auto)]

ghost use Rattle.std.specs.Prelude.{◌≡◌, ◌*◌, ◌≤◌, length};
ghost use Rattle.statement.specs.Bytes.{from_bytes};
ghost use Rattle.statement.specs.Calls.{empty_list, run_matrix, run_record};
ghost use Rattle.statement.specs.Replies.{growth_said};

use record_find::Taken;
use statement::{Grown, Kind, Refusal};

// A matrix body, run.
fn run_body(n: usize, body: &[u8]) -> Result<Grown, Refusal>
    requires { (n ≤ 64) × (length body.now ≡ 4 * (n * n)) }
    ensures { growth_said (empty_list 0) result ≡ run_matrix n (from_bytes body.now) }
{
    let count = n * n;
    let mut words = [0; 4096];
    words::read_words(count, body, &mut words);
    run::run_matrix(n, &words[..count])
}

// A record run, or its refusal.
#[tactic(auto, using(std::proofs::lemmas::Bool::Decides::nat_tests), unfolding(statement::specs::Calls::run_record))]
pub fn run_record(bytes: &[u8]) -> Result<Grown, Refusal>
    ensures { growth_said (empty_list 0) result ≡ run_record bytes.now }
{
    let taken = Taken {
        matrices: true,
        tables: true,
        trees: false,
    };
    let found = record_find::find_taken(bytes, taken)?;
    match found.kind {
        Kind::Matrix => run_body(found.taxa, found.body),
        Kind::Table | Kind::Tree => run::run_table(found.taxa, found.body),
    }
}
