// What the program spc prints of a trace: the answer, whether the bytes past the count stayed, and the bytes before
// it. Then the unit that it is asked for.
use crate::{result_sheets, show};
use std::io;
use std::rt::Files;
use terms::refusals::number_in;

const BEFORE: u8 = result_sheets::BEFORE;

// Into as few words and bytes as are enough.
fn answer(rt: &impl Print, name: &str, unit: u32, trace: &[u8]) -> io::Result<()> {
    let mut out = [BEFORE; 16000];
    let answer = council::answer(trace, unit, &mut [0; 1000], &mut out);
    result_sheets::written(rt, name, &out, answer)
}

fn answers(rt: &impl Print) -> io::Result<()> {
    answer(
        rt,
        "the council's two records, unit 1",
        1,
        b"0,20941264,8192,W,0.551706,Alpha/NT\n1,3435888,16384,r,1.609859,\n",
    )?;
    answer(
        rt,
        "first and last page",
        2,
        b"2,0,1,R,0.5\n2,34359738367,1,R,0.5\n",
    )?;
    answer(rt, "no bytes", 2, b"")?;
    answer(
        rt,
        "opcode x in line 2",
        2,
        b"2,8,512,R,0.5\n2,8,512,x,0.5\n",
    )?;
    answer(rt, "page behind the last", 2, b"2,34359738368,1,R,0.5\n")?;
    answer(rt, "1001 pages", 2, b"2,8,4096001,R,0.5\n")
}

fn long_trace(rt: &(impl Print + Eprint + Files)) -> io::Result<()> {
    let mut trace = [0; 16001];
    let trace = show::load(rt, "bytes-16001.spc", &mut trace)?;
    answer(rt, "16001 bytes", 2, trace)
}

// A thousand lines of 16 bytes, of which the last is printed.
fn longest(rt: &impl Print) -> io::Result<()> {
    let mut out = [BEFORE; 16000];
    let answer = council::answer(
        b"2,34359730368,4096000,R,0.5\n",
        2,
        &mut [0; 1000],
        &mut out,
    );
    let number = number_in(answer);
    println!(rt; "longest: number={number} count={}", answer.unwrap_or(0))?;
    rt.write_all(&out[15984..])
}

// Too few words or bytes are refused 6, before the trace is read.
fn too_few(rt: &impl Print) -> io::Result<()> {
    let mut out = [BEFORE; 16000];
    let mut short_out = [BEFORE; 15999];
    let answer = council::answer(b"2,8,512,R,0.5\n", 2, &mut [0; 999], &mut out);
    result_sheets::written(rt, "999 words", &out, answer)?;
    let answer = council::answer(b"2,8,512,R,0.5\n", 2, &mut [0; 1000], &mut short_out);
    result_sheets::written(rt, "15999 bytes", &short_out, answer)?;
    let answer = council::answer(b"\n", 2, &mut [0; 1000], &mut short_out);
    result_sheets::written(rt, "15999 bytes, a line feed", &short_out, answer)
}

fn unit(rt: &impl Print, text: &str) -> io::Result<()> {
    print!(rt; "unit of [{text}]: ")?;
    match records::unit_of(text.as_bytes()) {
        Some(unit) => println!(rt; "{unit}"),
        None => println!(rt; "none"),
    }
}

fn units(rt: &impl Print) -> io::Result<()> {
    unit(rt, "0")?;
    unit(rt, "007")?;
    unit(rt, "4294967295")?;
    unit(rt, "0000000000000000000000000000004294967295")
}

fn no_units(rt: &impl Print) -> io::Result<()> {
    unit(rt, "4294967296")?;
    unit(rt, "1000000000000000000000000000000000000000")?;
    unit(rt, "")?;
    unit(rt, "-1")?;
    unit(rt, "+1")?;
    unit(rt, " 1")?;
    unit(rt, "1\n")
}

pub fn all(rt: &(impl Print + Eprint + Files)) -> io::Result<()> {
    answers(rt)?;
    long_trace(rt)?;
    longest(rt)?;
    too_few(rt)?;
    units(rt)?;
    no_units(rt)
}
