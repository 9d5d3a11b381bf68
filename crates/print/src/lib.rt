// What programs print, and how bytes and rows are shown. No contract can say what is written to standard output: these are proved safe and ending, and programs that use them are
// compared with stored output. Each ends early with the error of a write that failed.
#![tactic(auto)]

use statement::{Ending, Grown, Refusal, Splits};
use std::iter::{Take, Zip};
use std::slice::Iter;
use std::{fmt, io};

// A byte as it is shown: the character where it can be, else its number.
#[derive(Clone, Copy, PartialEq, Eq, Debug)]
pub struct Shown(pub u8);

impl fmt::Display for Shown {
    fn fmt<W: fmt::Write>(&self, f: &mut fmt::Formatter<W>) -> fmt::Result {
        let Shown(b) = *self;
        if b.is_ascii_graphic() {
            write!(f, "'{}'", char::from(b))
        } else {
            write!(f, "byte {b}")
        }
    }
}

pub fn say(rt: &impl Print, text: &[u8]) -> io::Result<()> {
    rt.write_all(text)
}

// The rows in use: cluster and weight.
pub fn rows_of(list: &Splits) -> Take<Zip<Iter<'_, u64>, Iter<'_, u32>>> {
    list.clusters
        .iter()
        .zip(list.weights.iter())
        .take(list.rows)
}

// A line for each row.
pub fn rows(rt: &impl Print, list: &Splits) -> io::Result<()> {
    for (cluster, weight) in rows_of(list) {
        println!(rt; "{cluster} {weight}")?;
    }
    Ok(())
}

// A refusal: its number and its place.
pub fn refusal(rt: &impl Print, refusal: Refusal) -> io::Result<()> {
    println!(rt; "{refusal}")
}

// What a run gives: taxa and trials, then a row each; or the refusal and nothing else.
pub fn growth(rt: &impl Print, grown: Result<Grown, Refusal>) -> io::Result<()> {
    match grown {
        Ok(
            Grown {
                ending: Ending::Done,
                list,
                trials,
            },
        ) => {
            println!(rt; "taxa {} trials {trials}", list.taxa)?;
            rows(rt, &list)
        }
        Ok(
            Grown {
                ending: Ending::Short,
                ..
            },
        ) => println!(rt; "short"),
        Err(refused) => refusal(rt, refused),
    }
}
