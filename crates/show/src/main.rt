// The program `show`: a record on standard input, a plain description on standard output.
#![tactic(auto)]

use std::io;

// Up to 65,536 bytes; what follows the first record is ignored.
fn main(rt: HostRuntime) -> io::Result<()> {
    let mut bytes = [0u8; 65536];
    let got = input::read_full(&mut rt.reader(), &mut bytes)?;
    showing::describe(&rt, &bytes[..got])
}
