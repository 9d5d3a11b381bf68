// The program `pack`: typed numbers on standard input, the record of their matrix on standard output, or one line that says what is wrong and where.
#![tactic(auto)]

use std::io;

// A text of at most 65,536 bytes.
fn main(rt: HostRuntime) -> io::Result<()> {
    let mut buffer = [0u8; 65536];
    let n = input::read_full(&mut rt.reader(), &mut buffer)?;
    if input::more(&mut rt.reader())? {
        return packing::too_long(&rt, &buffer[..n]);
    }
    packing::answer(&rt, &buffer[..n])
}
