// The program `to_newick`: a record on standard input, the Newick text of its list on standard output, or one line that says what is wrong.
#![tactic(auto)]

use std::io;

// Up to 65,536 bytes; what follows the first record is ignored.
fn main(rt: HostRuntime) -> io::Result<()> {
    let mut bytes = [0u8; 65536];
    let got = input::read_full(&mut rt.reader(), &mut bytes)?;
    newick_out::answer(&rt, &bytes[..got])
}
