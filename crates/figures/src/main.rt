// Document 01's figures that are run and not proved, a real matrix with its list from an independent program, and a differential run: grown lists
// of small pseudo-random matrices and tables, uncut and cut into small allowances, and lists carried to another matrix, against brute force over every
// split from the definition.
#![tactic(auto)]

ghost use Rattle.std.specs.Prelude.{◌≤◌};

use samples::{Matrix, Shape, Table};
use statement::{Grown, Refusal, Splits};
use std::io;

// n below 2 and above 64; the largest distance taken, and one more; the table of three taxa; all zeros at 64.
fn edges(rt: &impl Print) -> io::Result<()> {
    let zeros = [0u32; 4225];
    print::growth(rt, run::run_matrix(1, &zeros[..1]))?;
    print::growth(rt, run::run_matrix(65, &zeros))?;
    let far = [0u32, 1000000, 1000000, 0];
    print::growth(rt, run::run_matrix(2, &far))?;
    let farther = [0u32, 1000001, 1000001, 0];
    print::growth(rt, run::run_matrix(2, &farther))?;
    let bytes = [0u8; 1];
    print::growth(rt, run::run_table(3, &bytes[..0]))?;
    print::growth(rt, run::run_matrix(64, &zeros[..4096]))
}

// Distances of seven primates, times 100,000 (test distances of PHYLIP 3.697).
const PRIMATES: [u32; 49] = [
    0, 123850, 134720, 120700, 108570, 128320, 124020, 123850, 0, 112310, 109660, 114700, 121570,
    115300, 134720, 112310, 0, 59240, 50770, 54660, 50010, 120700, 109660, 59240, 0, 38570, 44050,
    40920, 108570, 114700, 50770, 38570, 0, 31700, 28170, 128320, 121570, 54660, 44050, 31700, 0,
    25700, 124020, 115300, 50010, 40920, 28170, 25700, 0,
];

// The matrix of 64 taxa that hang one after the other on a line: |i - j| + 2. Its tree has all of its 125 edges.
fn comb_matrix() -> [u32; 4096] {
    let mut d = [0; 4096];
    for i in 0..64usize {
        for j in 0..64 {
            if i != j {
                d[64 * i + j] = (i.abs_diff(j) + 2) as u32;
            }
        }
    }
    d
}

fn comb(rt: &impl Print) -> io::Result<()> {
    match run::run_matrix(64, &comb_matrix()) {
        Ok(g) => println!(rt; "comb: rows {} trials {}", g.list.rows, g.trials),
        Err(refused) => print::refusal(rt, refused),
    }
}

// What is left of a growth in parts: the list so far and the trials of all parts.
#[derive(Clone, Copy)]
struct Parts {
    list: Splits,
    trials: u64,
}

// A growth cut into 80 small allowances.
fn in_parts<G: Fn(Splits, u64) -> Result<Grown, Refusal>>(
    seed: u64,
    grow: G,
) -> Result<Parts, Refusal>
    requires { G.IsAlwaysCallable grow }
{
    let mut parts = Parts {
        list: splits_list::empty(1),
        trials: 0,
    };
    for i in 0..80u64 {
        let g = grow(parts.list, (seed % 1000 + 7 * i) % 31)?;
        parts = Parts {
            list: g.list,
            trials: parts.trials.wrapping_add(g.trials),
        };
    }
    Ok(parts)
}

// Whether a list is not the answer by brute force, or the growth in parts did not end with the same list and trials.
fn differs<W: Fn(u64) -> u64>(n: usize, g: Grown, parts: Parts, weight: W) -> bool
    requires { W.IsAlwaysCallable weight }
{
    !brute::is_answer(n, &g.list, weight)
        || !brute::same(&g.list, &parts.list)
        || g.trials != parts.trials
}

fn matrix_differs(m: &Matrix, seed: u64) -> Result<bool, Refusal> {
    let g = run::run_matrix(m.n, m.entries())?;
    let parts = in_parts(seed, |list, allowance| {
        run::grow_matrix(m.n, m.entries(), list, allowance)
    })?;
    Ok(differs(m.n, g, parts, |c| brute::matrix_weight(m, c)))
}

fn table_differs(t: &Table, seed: u64) -> Result<bool, Refusal> {
    let g = run::run_table(t.n, t.bytes())?;
    let parts = in_parts(seed, |list, allowance| {
        run::grow_table(t.n, t.bytes(), list, allowance)
    })?;
    Ok(differs(t.n, g, parts, |c| brute::table_weight(t, c)))
}

// Whether a list of all taxa but the last does not grow on the matrix as the growth rule says, at just what the last one costs, or is not short with one
// trial less.
fn grown_differs(m: &Matrix, old: Splits) -> Result<bool, Refusal>
    requires { 2 ≤ m.now.n }
{
    let cost = brute::next_cost(m.n - 1, &old);
    let g = run::grow_matrix(m.n, m.entries(), old, cost)?;
    let short = run::grow_matrix(m.n, m.entries(), old, cost - 1)?;
    let as_ruled = brute::is_answer(m.n, &g.list, |c| brute::grown_weight(m, &old, c));
    Ok(!as_ruled || g.trials != cost || short.trials != 0 || !brute::same(&old, &short.list))
}

// The same for two lists from elsewhere: of another matrix, and of a table, where every row weighs 1.
fn carried_differs(m: &Matrix, i: u64) -> Result<bool, Refusal> {
    if m.n < 3 {
        return Ok(false);
    }
    let other = Matrix::drawn(Shape::turn(i), m.n - 1, i / 7);
    let table = Table::of(&other);
    let by_matrix = run::run_matrix(other.n, other.entries())?;
    let by_table = run::run_table(table.n, table.bytes())?;
    Ok(grown_differs(m, by_matrix.list)? || grown_differs(m, by_table.list)?)
}

// Case i of the differential run: n from 2 to 7, a matrix in one of five shapes and the table made from it, and every fifth time a table of
// bytes drawn at random.
fn case_differs(i: u64) -> Result<bool, Refusal> {
    let n = (i % 6 + 2) as usize;
    let shape = Shape::turn(i / 6);
    let m = Matrix::drawn(shape, n, i);
    Ok(
        matrix_differs(&m, i)?
            || carried_differs(&m, i)?
            || table_differs(&Table::of(&m), i)?
            || shape == Shape::Ties && table_differs(&Table::drawn(n, i), i)?,
    )
}

fn differential(rt: &impl Print) -> io::Result<()> {
    let mut last = 0;
    for i in 0..1200 {
        if case_differs(i).unwrap_or(true) {
            last = i + 1;
        }
    }
    println!(rt;
        "1200 matrices, 1440 tables and 2000 carried lists; the last that differs (0: none): {last}"
    )
}

fn main(rt: HostRuntime) -> io::Result<()> {
    edges(&rt)?;
    print::growth(&rt, run::run_matrix(7, &PRIMATES))?;
    comb(&rt)?;
    differential(&rt)
}
