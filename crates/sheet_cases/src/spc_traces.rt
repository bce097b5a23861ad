// Traces in the council's form through the reader: the answer, the pages taken, and whether the other words stayed.
// Most stand in the file traces.cases of data/, each behind its name; the unit is 2 where a case names no other.
ghost use Rattle.std.specs.Prelude.{◌≤◌, length};

use crate::show;
use std::io;
use std::rt::Files;

// What the lent words hold before a call; no trace has this page.
const BEFORE: u32 = 77777;

fn take(
    rt: &impl Print,
    name: &[u8],
    unit: u32,
    trace: &[u8],
    pages: &mut [u32],
) -> io::Result<()> {
    let answer = council::pages(trace, unit, pages);
    let count = answer.unwrap_or(0) as usize;
    rt.write_all(name)?;
    print!(rt; ": unit={unit}")?;
    show::refusal(rt, answer.err())?;
    print!(rt; " count={count}")?;
    // Every page, where they are few.
    if count <= 8 {
        for page in pages.iter().take(count) {
            print!(rt; " page={page}")?;
        }
    }
    show::pages(rt, pages, count, BEFORE)?;
    println!(rt; "")
}

// Into a page buffer a word longer than it must be.
fn of_unit(rt: &impl Print, name: &[u8], unit: u32, trace: &[u8]) -> io::Result<()> {
    take(rt, name, unit, trace, &mut [BEFORE; 1001])
}

fn trace(rt: &impl Print, name: &[u8], trace: &[u8]) -> io::Result<()> {
    of_unit(rt, name, 2, trace)
}

fn file(rt: &(impl Print + Eprint + Files), name: &str) -> io::Result<()> {
    let mut bytes = [0; 16001];
    let bytes = show::load(rt, name, &mut bytes)?;
    trace(rt, name.as_bytes(), bytes)
}

// Into page buffers of 0, 999 and 1,000 words.
fn short_buffers(rt: &impl Print, name: &[u8], trace: &[u8]) -> io::Result<()> {
    print!(rt; "0 words: ")?;
    take(rt, name, 2, trace, &mut [])?;
    print!(rt; "999 words: ")?;
    take(rt, name, 2, trace, &mut [BEFORE; 999])?;
    print!(rt; "1000 words: ")?;
    take(rt, name, 2, trace, &mut [BEFORE; 1000])
}

// Where the trace that starts at a place of the file of cases ends: at the line that closes it.
fn trace_end(file: &[u8], start: usize) -> usize
    requires { start ≤ length file.now }
    ensures { (start ≤ result) × (result ≤ length file.now) }
{
    let mut at = start;
    // A cursor, as document 01 names it: where the next line starts is said by the line before it.
    while let Some(end) = lines::line_at(file, at) {
        if text::equal(&file[at..end], b"--") {
            break;
        }
        at = end + 1;
    }
    at
}

// A line with a name, the trace, and the line that closes it; and so on.
fn cases(rt: &impl Print, file: &[u8]) -> io::Result<()> {
    let mut at = 0;
    while let Some(end) = lines::line_at(file, at) {
        let stop = trace_end(file, end + 1);
        trace(rt, &file[at..end], &file[end + 1..stop])?;
        at = stop + 3;
    }
    Ok(())
}

fn file_of_cases(rt: &(impl Print + Eprint + Files), name: &str) -> io::Result<()> {
    let mut bytes = [0; 16001];
    let bytes = show::load(rt, name, &mut bytes)?;
    cases(rt, bytes)
}

// A unit of more than 32 bits is told from the one that its last bits name.
fn units(rt: &impl Print) -> io::Result<()> {
    of_unit(rt, b"largest unit", 4294967295, b"4294967295,8,1,R,0.5\n")?;
    of_unit(rt, b"unit 2^32", 0, b"4294967296,8,1,R,0.5\n0,16,1,R,0.5\n")?;
    of_unit(
        rt,
        b"the council's two records",
        1,
        b"0,20941264,8192,W,0.551706,Alpha/NT\n1,3435888,16384,r,1.609859,\n",
    )
}

// A last line without its line feed is not in the form.
fn open_lines(rt: &impl Print) -> io::Result<()> {
    trace(rt, b"only line open", b"2,8,512,R,0.5")?;
    trace(rt, b"last line open", b"2,8,512,R,0.5\n2,16,512,R,0.5")?;
    trace(
        rt,
        b"page behind the last, line open",
        b"2,34359738368,1,R,0.5",
    )
}

// A thousand pages and one more, a line each; 16,001 bytes are refused 7, before any line is read.
fn long_traces(rt: &(impl Print + Eprint + Files)) -> io::Result<()> {
    file(rt, "thousand-reads.spc")?;
    file(rt, "thousand-and-one-reads.spc")?;
    file(rt, "bytes-16000.spc")?;
    file(rt, "bytes-16001.spc")?;
    file(rt, "bytes-16001-wrong-first-line.spc")
}

// Refused 6 before all else.
fn buffers(rt: &(impl Print + Eprint + Files)) -> io::Result<()> {
    short_buffers(rt, b"1000 pages", b"2,8,4096000,R,0.5\n")?;
    short_buffers(rt, b"opcode x", b"2,8,512,x,0.5\n")?;
    let mut bytes = [0; 16001];
    let bytes = show::load(rt, "bytes-16001.spc", &mut bytes)?;
    short_buffers(rt, b"bytes-16001.spc", bytes)
}

pub fn all(rt: &(impl Print + Eprint + Files)) -> io::Result<()> {
    file_of_cases(rt, "traces.cases")?;
    units(rt)?;
    open_lines(rt)?;
    long_traces(rt)?;
    buffers(rt)
}
