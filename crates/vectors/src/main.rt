// Records, sound and damaged, through the main job's own path (v); files of records, walked (w); typed numbers, packed (t); records in plain words (s);
// Newick texts to records (n), and records to Newick texts (o).
// The files in data/ and the expected output are made by tests/make_vectors.py from the documents alone.
#![tactic(auto)]

use std::io;
use std::rt::Files;
use walker::Found;

// What a walker says at a place; the place behind a record, where it goes on, and none where it stops.
fn step(rt: &impl Print, file: &[u8], place: usize) -> io::Result<Option<usize>> {
    match walker::step_at(file, place) {
        Ok(
            Some(
                Found {
                    start,
                    length,
                    behind,
                },
            ),
        ) => {
            println!(rt; "body at {start}, {length} bytes")?;
            Ok(Some(behind))
        }
        Ok(None) => {
            println!(rt; "end")?;
            Ok(None)
        }
        Err(refused) => {
            print::refusal(rt, refused)?;
            Ok(None)
        }
    }
}

// Ten steps at most.
fn steps(rt: &impl Print, file: &[u8]) -> io::Result<()> {
    let mut place = 0;
    for _ in 0..10 {
        let Some(next) = step(rt, file, place)? else {
            return Ok(());
        };
        place = next;
    }
    Ok(())
}

// What `from_newick` says of the text behind the first line, which has the number of taxa, and then `more` for a text that goes on. Its record is
// described.
fn from_newick(rt: &impl Print, file: &[u8]) -> io::Result<()> {
    let end = lines::find(file, 0, b'\n');
    let start = lines::behind(file, end);
    let n = numerals::number_at(file, 0);
    let more = newick_hints::byte_before(file, end) == Some(b'e');
    let mut out = [0u8; 4096];
    let len = newick_in::answer(rt, n as usize, &file[start..], more, &mut out)?;
    if len > 0 {
        showing::describe(rt, &out[..len])
    } else {
        Ok(())
    }
}

// The first files of a letter: the name of each, and the answer to its bytes.
fn files<A: Fn(&[u8]) -> io::Result<()>>(
    rt: &(impl Print + Files),
    letter: u8,
    count: u8,
    answer: A,
) -> io::Result<()>
    requires { A.IsAlwaysCallable answer }
{
    let mut bytes = [0u8; 65536];
    for i in 0..count {
        let name = [letter, b'0' + i / 10, b'0' + i % 10];
        print::say(rt, &name)?;
        println!(rt)?;
        let got = input::read_file(rt, &name, &mut bytes)?;
        answer(&bytes[..got])?;
    }
    Ok(())
}

fn main(rt: HostRuntime) -> io::Result<()> {
    files(
        &rt,
        b'v',
        39,
        |bytes| print::growth(&rt, job::run_record(bytes)),
    )?;
    files(&rt, b'w', 3, |bytes| steps(&rt, bytes))?;
    files(&rt, b't', 19, |bytes| packing::answer(&rt, bytes))?;
    files(&rt, b's', 20, |bytes| showing::describe(&rt, bytes))?;
    files(&rt, b'n', 48, |bytes| from_newick(&rt, bytes))?;
    files(&rt, b'o', 20, |bytes| newick_out::answer(&rt, bytes))
}
