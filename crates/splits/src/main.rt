// The main job: up to 65,536 bytes of standard input; the list of the record that they begin with is printed, or its refusal. What follows the
// first record is ignored.
#![tactic(auto)]

use std::io;

fn main(rt: HostRuntime) -> io::Result<()> {
    let mut bytes = [0u8; 65536];
    let got = input::read_full(&mut rt.reader(), &mut bytes)?;
    print::growth(&rt, job::run_record(&bytes[..got]))
}
