// The program `from_newick`: a Newick text on standard input, the number of its taxa as the argument; the record of its tree on standard output, or one
// line that says what is wrong.
#![tactic(auto)]

use std::io;
use std::rt::Env;

// The number of taxa, 2 to 64, that the first argument says.
fn taxa(rt: &impl Env) -> Option<usize> {
    let mut word = [0u8; 4096];
    let got = rt.arg(1, &mut word).ok()?;
    newick_in::taxa_in(&word[..got])
}

// The record of a text, or what is wrong with it.
fn send(rt: &impl Print, n: usize, text: &[u8], more: bool) -> io::Result<()> {
    let mut out = [0u8; 4096];
    let len = newick_in::answer(rt, n, text, more, &mut out)?;
    print::say(rt, &out[..len])
}

// A text of at most 65,536 bytes; what follows its semicolon is ignored.
fn main(rt: HostRuntime) -> io::Result<()> {
    let Some(n) = taxa(&rt) else {
        return println!(&rt;
            "usage: ./program from_newick N < text, with N the number of taxa, 2 to 64"
        );
    };
    let mut text = [0u8; 65536];
    let got = input::read_full(&mut rt.reader(), &mut text)?;
    let more = input::more(&mut rt.reader())?;
    send(&rt, n, &text[..got], more)
}
