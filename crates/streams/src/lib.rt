// What every program here reads and writes by: read whole and written whole, or said why not, in one line on standard
// error. The program that is told of a failure prints nothing more and ends with a status that is not 0.
#![tactic(auto)]

ghost use Rattle.std.specs.Prelude.{◌<◌, length, take, IfOk};
ghost use Rattle.std.specs.Io.KnownBytes.{Consumes, IsAtEnd};
ghost use Rattle.streams.specs.Reads.{Handed, ReadTells};

use std::io;
use std::io::{ErrorKind, Read};

// What failed has been said on standard error, in one line.
#[derive(Clone, Copy, Debug)]
pub struct Failed;

// A read that a signal interrupts is tried again, so many times in all: a proved loop has to end. (It is a while and no
// for: how often it reads is the reader's to say.)
const TRIES: u32 = 1000000;

// What failed is said by these words, where they are text.
fn say(rt: &impl Eprint, what: &[u8], error: io::Error) -> Failed {
    let what = str::from_utf8(what).unwrap_or("reading");
    let _ = eprintln!(rt; "{what}: {error}");
    Failed
}

// What a read's answer tells: so many bytes, none at the end; nothing where a signal interrupted it; a failure. A read
// that went well is none.
fn told(got: io::Result<usize>) -> io::Result<Option<usize>>
    ensures { ReadTells got result }
{
    match got {
        Ok(n) => Ok(Some(n)),
        Err(e) if e.kind() == ErrorKind::Interrupted => Ok(None),
        Err(e) => Err(e),
    }
}

// Reads until the file ends or the buffer is full; where a read fails, that is said by these words, which stay bytes:
// the function is public, and any bytes are answered. Of a reader whose bytes are known those that come are the next,
// and they are fewer than the buffer holds only where no more are left.
pub fn read_from<R: Read>(
    rt: &impl Eprint,
    reader: &mut R,
    what: &[u8],
    buf: &mut [u8],
) -> Result<usize, Failed>
    ensures handed { Handed buf.old result buf.new }
    ensures next { IfOk result (λ n. Consumes (R.remaining reader.old) (R.remaining reader.new) (take n buf.new)) }
    ensures end { IfOk result (λ n. n < length buf.new → IsAtEnd (R.remaining reader.new)) }
{
    let mut at = 0;
    let mut tries = TRIES;
    while at < buf.len() && 0 < tries {
        match told(reader.read(&mut buf[at..])) {
            Ok(Some(0)) => return Ok(at),
            Ok(Some(n)) => at += n,
            Ok(None) => tries -= 1,
            Err(e) => return Err(say(rt, what, e)),
        }
    }
    if at < buf.len() {
        return Err(say(rt, what, io::Error::from(ErrorKind::Interrupted)));
    }
    Ok(at)
}

// Standard input, read so.
pub fn read_input<R: Read>(
    rt: &impl Eprint,
    reader: &mut R,
    buf: &mut [u8],
) -> Result<usize, Failed>
    ensures handed { Handed buf.old result buf.new }
    ensures next { IfOk result (λ n. Consumes (R.remaining reader.old) (R.remaining reader.new) (take n buf.new)) }
    ensures end { IfOk result (λ n. n < length buf.new → IsAtEnd (R.remaining reader.new)) }
{
    read_from(rt, reader, b"reading standard input", buf)
}

// Writes all of a text to standard output.
pub fn print(rt: &(impl Print + Eprint), text: &[u8]) -> Result<(), Failed> {
    rt.write_all(text)
        .map_err(|e| say(rt, b"writing standard output", e))
}
