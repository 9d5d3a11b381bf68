// The C face: every call of document 01 over numbers and slices, for a program that links the archive (include/splitbox.h).
// None asks anything of its input, and a refusal leaves every lent slice and number as it was.
#![tactic(auto)]

ghost use Rattle.std.specs.Prelude.{◌≡◌, []};
ghost use Rattle.statement.specs.declared.Splits.{Splits};
ghost use Rattle.statement.specs.Rows.{list_in, list_of};
ghost use Rattle.statement.specs.Refusals.{outcome_of};
ghost use Rattle.statement.specs.Record.{taken_checks};
ghost use Rattle.statement.specs.Calls.{run_matrix, run_table, grow_matrix, grow_table, write_tree, tree_written, read_tree, measure_newick, newick_measured, write_newick, newick_written, sum_paths, paths_written, find_record, write_record, record_written, step_at, run_record};
ghost use Rattle.statement.specs.Replies.{said, reading_said, growth_said, refused_for};
ghost use Rattle.record_find.specs.Taken.{kinds_taken};
ghost use Rattle.record_find.specs.Stretch.{body_start, body_length};
ghost use Rattle.newick_meaning.specs.Parse.{read_newick};
ghost use Rattle.splitbox.specs.Face.{reply_of, Shares, HandedBack, GrownBack, ReadBack, nearly, TextBack, Walked};

use record_find::Taken;
use statement::{Ending, Grown, Refusal, Splits};

// A refusal as one number: its own in the low byte, its place above.
fn code(refusal: Refusal) -> u64
    requires { Shares (refused_for refusal) }
    ensures { result ≡ reply_of (refused_for refusal) }
{
    u64::from(refusal.reason.number()) + 256 * (refusal.place as u64)
}

// What a call says as one number.
fn reply<T: Copy>(answer: Result<T, Refusal>) -> u64
    requires { Shares (said answer) }
    ensures { result ≡ reply_of (said answer) }
{
    match answer {
        Ok(_) => 0,
        Err(refusal) => code(refusal),
    }
}

// The list in four lent places.
fn given(taxa: usize, rows: usize, clusters: &[u64; 125], weights: &[u32; 125]) -> Splits
    ensures { result ≡ list_in taxa rows clusters.now weights.now }
{
    Splits {
        taxa,
        rows,
        clusters: *clusters,
        weights: *weights,
    }
}

// A list into four lent places.
fn put(
    s: &Splits,
    taxa: &mut usize,
    rows: &mut usize,
    clusters: &mut [u64; 125],
    weights: &mut [u32; 125],
)
    ensures { list_in taxa.new rows.new clusters.new weights.new ≡ s.now }
{
    *taxa = s.taxa;
    *rows = s.rows;
    *clusters = s.clusters;
    *weights = s.weights;
}

// A list starts at k = 1 with no row.
#[unsafe(no_mangle)]
pub extern "C" fn splitbox_start(
    taxa: &mut usize,
    rows: &mut usize,
    clusters: &mut [u64; 125],
    weights: &mut [u32; 125],
)
    ensures { list_in taxa.new rows.new clusters.new weights.new ≡ list_of 1 [] }
{
    put(&splits_list::empty(1), taxa, rows, clusters, weights);
}

// What a growth or a whole run gives, into the lent places; nothing where it is refused.
fn hand_back(
    grown: Result<Grown, Refusal>,
    taxa: &mut usize,
    rows: &mut usize,
    clusters: &mut [u64; 125],
    weights: &mut [u32; 125],
    trials: &mut u64,
) -> u64
    requires { Shares (said grown) }
    ensures { (given : Splits) → HandedBack (growth_said given grown) result
        (list_in taxa.old rows.old clusters.old weights.old)
        (list_in taxa.new rows.new clusters.new weights.new)
        trials.old trials.new }
{
    match grown {
        Ok(grown) => {
            put(&grown.list, taxa, rows, clusters, weights);
            *trials = grown.trials;
            match grown.ending {
                Ending::Done => 0,
                Ending::Short => 255,
            }
        }
        Err(refusal) => code(refusal),
    }
}

// A list that was read, into the lent places; nothing where it is refused.
fn take_in(
    read: Result<Splits, Refusal>,
    taxa: &mut usize,
    rows: &mut usize,
    clusters: &mut [u64; 125],
    weights: &mut [u32; 125],
) -> u64
    requires { Shares (said read) }
    ensures { ReadBack (reading_said read) result
        (list_in taxa.old rows.old clusters.old weights.old)
        (list_in taxa.new rows.new clusters.new weights.new) }
{
    match read {
        Ok(list) => {
            put(&list, taxa, rows, clusters, weights);
            0
        }
        Err(refusal) => code(refusal),
    }
}

// The whole run on a matrix.
#[unsafe(no_mangle)]
pub extern "C" fn splitbox_run_matrix(
    n: usize,
    entries: &[u32],
    taxa: &mut usize,
    rows: &mut usize,
    clusters: &mut [u64; 125],
    weights: &mut [u32; 125],
    trials: &mut u64,
) -> u64
    ensures { HandedBack (run_matrix n entries.now) result
        (list_in taxa.old rows.old clusters.old weights.old)
        (list_in taxa.new rows.new clusters.new weights.new)
        trials.old trials.new }
{
    hand_back(
        run::run_matrix(n, entries),
        taxa,
        rows,
        clusters,
        weights,
        trials,
    )
}

// The whole run on a table.
#[unsafe(no_mangle)]
pub extern "C" fn splitbox_run_table(
    n: usize,
    bytes: &[u8],
    taxa: &mut usize,
    rows: &mut usize,
    clusters: &mut [u64; 125],
    weights: &mut [u32; 125],
    trials: &mut u64,
) -> u64
    ensures { HandedBack (run_table n bytes.now) result
        (list_in taxa.old rows.old clusters.old weights.old)
        (list_in taxa.new rows.new clusters.new weights.new)
        trials.old trials.new }
{
    hand_back(
        run::run_table(n, bytes),
        taxa,
        rows,
        clusters,
        weights,
        trials,
    )
}

// Growth on a matrix.
#[unsafe(no_mangle)]
pub extern "C" fn splitbox_grow_matrix(
    n: usize,
    entries: &[u32],
    allowance: u64,
    taxa: &mut usize,
    rows: &mut usize,
    clusters: &mut [u64; 125],
    weights: &mut [u32; 125],
    trials: &mut u64,
) -> u64
    ensures { GrownBack (λ given. grow_matrix n entries.now given allowance) result
        (list_in taxa.old rows.old clusters.old weights.old)
        (list_in taxa.new rows.new clusters.new weights.new)
        trials.old trials.new }
{
    let s = given(*taxa, *rows, clusters, weights);
    hand_back(
        run::grow_matrix(n, entries, s, allowance),
        taxa,
        rows,
        clusters,
        weights,
        trials,
    )
}

// Growth on a table.
#[unsafe(no_mangle)]
pub extern "C" fn splitbox_grow_table(
    n: usize,
    bytes: &[u8],
    allowance: u64,
    taxa: &mut usize,
    rows: &mut usize,
    clusters: &mut [u64; 125],
    weights: &mut [u32; 125],
    trials: &mut u64,
) -> u64
    ensures { GrownBack (λ given. grow_table n bytes.now given allowance) result
        (list_in taxa.old rows.old clusters.old weights.old)
        (list_in taxa.new rows.new clusters.new weights.new)
        trials.old trials.new }
{
    let s = given(*taxa, *rows, clusters, weights);
    hand_back(
        run::grow_table(n, bytes, s, allowance),
        taxa,
        rows,
        clusters,
        weights,
        trials,
    )
}

// The main job: a record of a matrix or a table, found and run.
#[unsafe(no_mangle)]
pub extern "C" fn splitbox_run_record(
    bytes: &[u8],
    taxa: &mut usize,
    rows: &mut usize,
    clusters: &mut [u64; 125],
    weights: &mut [u32; 125],
    trials: &mut u64,
) -> u64
    ensures { HandedBack (run_record bytes.now) result
        (list_in taxa.old rows.old clusters.old weights.old)
        (list_in taxa.new rows.new clusters.new weights.new)
        trials.old trials.new }
{
    hand_back(
        job::run_record(bytes),
        taxa,
        rows,
        clusters,
        weights,
        trials,
    )
}

// The tree of a list with k = n, into a lent slice.
#[unsafe(no_mangle)]
pub extern "C" fn splitbox_write_tree(
    n: usize,
    taxa: usize,
    rows: usize,
    clusters: &[u64; 125],
    weights: &[u32; 125],
    out: &mut [u8],
) -> u64
    ensures value { result ≡ reply_of (write_tree n (list_in taxa rows clusters.now weights.now) out.old) }
    ensures out_after { out.new ≡ tree_written n (list_in taxa rows clusters.now weights.now) out.old }
{
    let s = given(taxa, rows, clusters, weights);
    reply(tree_write::write_tree(n, s, out))
}

// A tree read.
#[unsafe(no_mangle)]
pub extern "C" fn splitbox_read_tree(
    n: usize,
    body: &[u8],
    taxa: &mut usize,
    rows: &mut usize,
    clusters: &mut [u64; 125],
    weights: &mut [u32; 125],
) -> u64
    ensures { ReadBack (read_tree n body.now) result
        (list_in taxa.old rows.old clusters.old weights.old)
        (list_in taxa.new rows.new clusters.new weights.new) }
{
    take_in(tree_read::read_tree(n, body), taxa, rows, clusters, weights)
}

// The length of the Newick text of a list with k = n.
#[unsafe(no_mangle)]
pub extern "C" fn splitbox_newick_length(
    n: usize,
    taxa: usize,
    rows: usize,
    clusters: &[u64; 125],
    weights: &[u32; 125],
    length: &mut usize,
) -> u64
    ensures value { result ≡ reply_of (measure_newick n (list_in taxa rows clusters.now weights.now)) }
    ensures length_after { length.new ≡ newick_measured n (list_in taxa rows clusters.now weights.now) length.old }
{
    let s = given(taxa, rows, clusters, weights);
    match newick_write::newick_length(n, s) {
        Ok(long) => {
            *length = long;
            0
        }
        Err(refusal) => code(refusal),
    }
}

// Its Newick text, into a lent slice.
#[unsafe(no_mangle)]
pub extern "C" fn splitbox_write_newick(
    n: usize,
    taxa: usize,
    rows: usize,
    clusters: &[u64; 125],
    weights: &[u32; 125],
    out: &mut [u8],
) -> u64
    ensures value { result ≡ reply_of (write_newick n (list_in taxa rows clusters.now weights.now) out.old) }
    ensures out_after { out.new ≡ newick_written n (list_in taxa rows clusters.now weights.now) out.old }
{
    let s = given(taxa, rows, clusters, weights);
    reply(newick_write::write_newick(n, s, out))
}

// The refusal at a place that fits a reply.
fn near(refusal: Refusal) -> Refusal
    ensures { refused_for result ≡ nearly (refused_for refusal) }
{
    refusal.reason.at(refusal.place.min(281474976710655))
}

// A Newick text read.
#[unsafe(no_mangle)]
pub extern "C" fn splitbox_read_newick(
    n: usize,
    text: &[u8],
    taxa: &mut usize,
    rows: &mut usize,
    clusters: &mut [u64; 125],
    weights: &mut [u32; 125],
) -> u64
    ensures { TextBack (read_newick n text.now) result
        (list_in taxa.old rows.old clusters.old weights.old)
        (list_in taxa.new rows.new clusters.new weights.new) }
{
    let read = newick_read::read_newick(n, text).map_err(near);
    take_in(read, taxa, rows, clusters, weights)
}

// Path sums of a list with k = n, into a lent slice of n by n.
#[unsafe(no_mangle)]
pub extern "C" fn splitbox_sum_paths(
    n: usize,
    taxa: usize,
    rows: usize,
    clusters: &[u64; 125],
    weights: &[u32; 125],
    out: &mut [u64],
) -> u64
    ensures value { result ≡ reply_of (sum_paths n (list_in taxa rows clusters.now weights.now) out.old) }
    ensures out_after { out.new ≡ paths_written n (list_in taxa rows clusters.now weights.now) out.old }
{
    let s = given(taxa, rows, clusters, weights);
    reply(paths::sum_paths(n, s, out))
}

// A record at the start of the bytes: its refusal, up to the sum word.
#[unsafe(no_mangle)]
pub extern "C" fn splitbox_find_record(bytes: &[u8]) -> u64
    ensures { result ≡ reply_of (find_record bytes.now) }
{
    reply(record_find::find_record(bytes))
}

// The same for a call that takes only some kinds.
#[unsafe(no_mangle)]
pub extern "C" fn splitbox_find_taken(
    bytes: &[u8],
    matrices: bool,
    tables: bool,
    trees: bool,
) -> u64
    ensures { result ≡ reply_of (outcome_of (taken_checks (kinds_taken (record { matrices = matrices; tables = tables; trees = trees })) bytes.now)) }
{
    let taken = Taken {
        matrices,
        tables,
        trees,
    };
    reply(record_find::find_taken(bytes, taken))
}

// Where the body of the record begins in the caller's own bytes, and how long it is; an empty stretch where the finding is refused.
#[unsafe(no_mangle)]
pub extern "C" fn splitbox_body_start(bytes: &[u8]) -> usize
    ensures { result ≡ body_start bytes.now }
{
    if record_find::find_record(bytes).is_ok() {
        8
    } else {
        0
    }
}

#[unsafe(no_mangle)]
pub extern "C" fn splitbox_body_length(bytes: &[u8]) -> usize
    ensures { result ≡ body_length bytes.now }
{
    record_find::body_of(bytes).len()
}

// A record written into a lent slice.
#[unsafe(no_mangle)]
pub extern "C" fn splitbox_write_record(kind: u8, n: usize, body: &[u8], out: &mut [u8]) -> u64
    ensures value { result ≡ reply_of (write_record kind n body.now out.old) }
    ensures out_after { out.new ≡ record_written kind n body.now out.old }
{
    reply(record_write::write_record(kind, n, body, out))
}

// A step of a walker whose place the caller keeps.
#[unsafe(no_mangle)]
pub extern "C" fn splitbox_walk(
    file: &[u8],
    place: &mut usize,
    start: &mut usize,
    length: &mut usize,
) -> u64
    ensures { Walked (step_at file.now place.old) result
        place.old place.new
        start.old start.new
        length.old length.new }
{
    match walker::step_at(file, *place) {
        Ok(Some(found)) => {
            *place = found.behind;
            *start = found.start;
            *length = found.length;
            0
        }
        Ok(None) => 254,
        Err(refusal) => u64::from(refusal.reason.number()),
    }
}
