// Trees read: one in a free numbering, and damaged ones, one or more for each refusal, with the reply that document 01 lists; and lists of
// pseudo-random matrices and tables sent through writing, reading and writing again.
#![tactic(auto)]

ghost use Rattle.std.specs.Prelude.{◌<◌};

use samples::{Matrix, Shape, Table};
use statement::{Refusal, Splits};
use std::io;

// What a reading gives: the rows, or the refusal.
fn print(rt: &impl Print, read: Result<Splits, Refusal>) -> io::Result<()> {
    match read {
        Ok(list) => {
            println!(rt; "taxa {}", list.taxa)?;
            print::rows(rt, &list)
        }
        Err(refused) => print::refusal(rt, refused),
    }
}

// n = 3, m = 3: the group 1 2 is vertex 0, taxon 1 is at home at vertex 1 and taxon 2 at vertex 2, both under vertex 0.
const SOUND: [u8; 19] = [3, 3, 0, 0, 3, 1, 2, 6, 0, 0, 0, 2, 0, 0, 0, 4, 0, 0, 0];

// The sound tree with one byte changed, read.
fn read_damaged(rt: &impl Print, at: usize, byte: u8) -> io::Result<()>
    requires { at < 19 }
{
    let mut body = SOUND;
    body[at] = byte;
    print(rt, tree_read::read_tree(3, &body))
}

fn readings(rt: &impl Print) -> io::Result<()> {
    print(rt, tree_read::read_tree(3, &SOUND))?;
    // 1: n; 2: a length that fits no m; 9: the m byte, a link and a home above m
    print(rt, tree_read::read_tree(1, &SOUND))?;
    print(rt, tree_read::read_tree(65, &SOUND))?;
    print(rt, tree_read::read_tree(3, &SOUND[..18]))?;
    read_damaged(rt, 0, 2)?;
    read_damaged(rt, 1, 4)?;
    read_damaged(rt, 6, 4)?;
    // 14: weight 0, and 4 + 256 * 256 * 31 = 2,031,620, each at its vertex
    read_damaged(rt, 11, 0)?;
    read_damaged(rt, 17, 31)?;
    // 10: vertex 0 under its own child, and vertex 2 under itself
    read_damaged(rt, 1, 1)?;
    read_damaged(rt, 3, 2)?;
    // 11: taxon 0 at vertex 0; 12: no taxon beyond vertex 2; 13: vertices 0 and 1 both hold taxa 1 and 2
    read_damaged(rt, 4, 0)?;
    read_damaged(rt, 6, 1)?;
    let twins = [2u8, 2, 0, 2, 1, 1, 1, 0, 0, 0, 1, 0, 0, 0];
    print(rt, tree_read::read_tree(3, &twins))
}

// The tree of a list, written into the first bytes of a body of 64; none where the writing is refused.
fn written(n: usize, list: &Splits, len: usize) -> Option<[u8; 64]> {
    let mut bytes = [0; 64];
    tree_write::write_tree(n, *list, bytes.get_mut(..len)?).ok()?;
    Some(bytes)
}

// Whether a list written, read and written again does not give the list and the same bytes.
fn trip_differs(n: usize, list: &Splits) -> bool {
    if n > 7 || list.rows > 11 {
        return true;
    }
    let len = 1 + n + 5 * list.rows;
    let Some(bytes) = written(n, list, len) else {
        return true;
    };
    match tree_read::read_tree(n, &bytes[..len]) {
        Ok(again) => !brute::same(list, &again) || written(n, &again, len) != Some(bytes),
        Err(_) => true,
    }
}

// Case i: the list of a matrix, and that of a table of random bytes.
fn case_differs(i: u64) -> Result<bool, Refusal> {
    let n = (i % 4 + 4) as usize;
    let m = Matrix::drawn(Shape::turn(i / 4), n, i);
    let t = Table::drawn(n, i);
    let by_matrix = run::run_matrix(n, m.entries())?;
    let by_table = run::run_table(n, t.bytes())?;
    Ok(trip_differs(n, &by_matrix.list) || trip_differs(n, &by_table.list))
}

fn trips(rt: &impl Print) -> io::Result<()> {
    let mut last = 0;
    for i in 0..400 {
        if case_differs(i).unwrap_or(true) {
            last = i + 1;
        }
    }
    println!(rt;
        "800 lists written, read and written; the last case that differs (0: none): {last}"
    )
}

// Path sums of a list into 16 entries: done, or the refusal; and the entries, four to a line.
fn print_sums(rt: &impl Print, n: usize, list: Splits) -> io::Result<()> {
    let mut out = [0u64; 16];
    match paths::sum_paths(n, list, &mut out) {
        Ok(()) => println!(rt; "done")?,
        Err(refused) => print::refusal(rt, refused)?,
    }
    for (e, sum) in out.iter().enumerate() {
        let end = if e % 4 == 3 { '\n' } else { ' ' };
        print!(rt; "{sum}{end}")?;
    }
    Ok(())
}

// 20 between taxa 0 and 3; a list of another k gets 8; 16 entries are not 9 and leave the slice as it was.
fn path_sums(rt: &impl Print) -> io::Result<()> {
    let a = [0u32, 5, 9, 10, 5, 0, 10, 11, 9, 10, 0, 9, 10, 11, 9, 0];
    let three = [0u32, 1, 1, 1, 0, 3, 1, 3, 0];
    match (run::run_matrix(4, &a), run::run_matrix(3, &three)) {
        (Ok(four), Ok(three)) => {
            print_sums(rt, 4, four.list)?;
            print_sums(rt, 5, four.list)?;
            print_sums(rt, 3, three.list)
        }
        (Err(refused), _) | (_, Err(refused)) => print::refusal(rt, refused),
    }
}

fn main(rt: HostRuntime) -> io::Result<()> {
    readings(&rt)?;
    trips(&rt)?;
    path_sums(&rt)
}
