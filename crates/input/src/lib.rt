// Reading bytes: a buffer is filled from its start, as far as there are bytes.
#![tactic(auto)]

ghost use Rattle.std.specs.Prelude.{◌≡◌, ℕ, ◌<◌, [], ◌∷◌, IfOk, MatchBool, length, take};
ghost use Rattle.std.specs.Io.{ReadsAtMost};
ghost use Rattle.std.specs.Io.KnownBytes.{Consumes, IsAtEnd};

use std::io::{ErrorKind, Read};
use std::rt::Files;
use std::{fs, io, str};

// Reads until the buffer is full or the reader ends: how many bytes are at the start of the buffer. On an empty buffer it makes no call. Of a reader
// whose bytes are known, these are its next ones, and it is at its end where the buffer is not full.
pub fn read_full<R: Read>(reader: &mut R, buf: &mut [u8]) -> io::Result<usize>
    ensures bound { ReadsAtMost result buf.new }
    ensures bytes { IfOk result (λ n. Consumes (R.remaining reader.old) (R.remaining reader.new) (take n buf.new)) }
    ensures end { IfOk result (λ n. n < length buf.new → IsAtEnd (R.remaining reader.new)) }
{
    let mut done: usize = 0;
    while done < buf.len() {
        let n = reader.read(&mut buf[done..])?;
        if n == 0 {
            return Ok(done);
        }
        done += n;
    }
    Ok(done)
}

// The same of the file of this name.
pub fn read_file(rt: &impl Files, name: &[u8], buf: &mut [u8]) -> io::Result<usize>
    ensures { ReadsAtMost result buf.new }
{
    let Ok(path) = str::from_utf8(name) else {
        return Err(io::Error::from(ErrorKind::InvalidFilename));
    };
    read_full(&mut fs::open(rt, path)?, buf)
}

// Whether the reader goes on: a byte of it is taken, where there is one.
pub fn more<R: Read>(reader: &mut R) -> io::Result<bool>
    ensures { IfOk result (λ more. MatchBool more ((b : ℕ) × Consumes (R.remaining reader.old) (R.remaining reader.new) (b ∷ [])) (Consumes (R.remaining reader.old) (R.remaining reader.new) [] × IsAtEnd (R.remaining reader.new))) }
{
    let mut one = [0u8; 1];
    Ok(read_full(reader, &mut one)? != 0)
}
