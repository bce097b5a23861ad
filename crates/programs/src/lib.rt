// The programs score, ledger and copy: a bid sheet from standard input; to standard output its result sheet, for the
// ledger also a line for each request, or its copy; or two lines of a refusal. And spc: a trace in the council's form,
// and the page lines of one unit. What is printed is proved in scoring, copying and council.
#![tactic(auto)]

ghost use Rattle.std.specs.Prelude.{◌≤◌};

use std::env::{Env, FillError};
use std::io::Read;
use std::process::ExitCode;
use streams::Failed;

// Of a sheet or trace that is too long, one byte too many is read.
const INPUT: usize = 16001;

const OUT: usize = 256256;

// The memory that is lent: enough for each program.
#[derive(Drop)]
struct Memory {
    pages: [u32; 1000],
    dir: [u32; 4104],
    answers: [u32; 4000],
    out: [u8; OUT],
}

// What a program does between standard input and output. An impl each for score and ledger, which differ in the call
// alone: to share it, a closure over five slices would have to say in its own clauses what the call ensures.
trait Program {
    // What is to be printed of the input, a sheet or a trace, stands in front of out, so many bytes.
    fn answer(&self, input: &[u8], memory: &mut Memory) -> usize
        ensures { result ≤ OUT };
}

#[derive(Clone, Copy)]
struct ScoreSheet;

impl Program for ScoreSheet {
    fn answer(&self, input: &[u8], memory: &mut Memory) -> usize {
        let scored = scoring::score(
            input,
            &mut memory.pages,
            &mut memory.dir,
            &mut memory.answers,
            &mut memory.out,
        );
        scored.count
    }
}

// As ScoreSheet, but for the operation, which is all that it says.
#[derive(Clone, Copy)]
struct WriteLedger;

impl Program for WriteLedger {
    fn answer(&self, input: &[u8], memory: &mut Memory) -> usize {
        let scored = scoring::ledger(
            input,
            &mut memory.pages,
            &mut memory.dir,
            &mut memory.answers,
            &mut memory.out,
        );
        scored.count
    }
}

#[derive(Clone, Copy)]
struct CopySheet;

impl Program for CopySheet {
    fn answer(&self, input: &[u8], memory: &mut Memory) -> usize {
        copying::answer(input, &mut memory.out).unwrap_or(0)
    }
}

// The unit whose pages are listed.
#[derive(Clone, Copy)]
struct ListPages(u32);

impl Program for ListPages {
    fn answer(&self, input: &[u8], memory: &mut Memory) -> usize {
        council::answer(input, self.0, &mut memory.pages, &mut memory.out).unwrap_or(0)
    }
}

// Reads the input and prints what a program answers.
fn answer(
    rt: &(impl Print + Eprint),
    reader: &mut impl Read,
    program: &impl Program,
) -> Result<(), Failed> {
    let mut memory = Memory {
        pages: [0; 1000],
        dir: [0; 4104],
        answers: [0; 4000],
        out: [0; OUT],
    };
    let mut input = [0; INPUT];
    let n = streams::read_input(rt, reader, &mut input)?;
    let count = program.answer(&input[..n], &mut memory);
    streams::print(rt, &memory.out[..count])
}

// The program's status.
fn run(rt: &(impl Print + Eprint), reader: &mut impl Read, program: &impl Program) -> ExitCode {
    match answer(rt, reader, program) {
        Ok(()) => ExitCode::SUCCESS,
        Err(Failed) => ExitCode::FAILURE,
    }
}

// The one argument that a program was started with, as a unit. One of over 4,096 bytes is none.
fn argument(rt: &impl Env) -> Option<u32> {
    let mut text = [0; 4096];
    let Ok(n) = rt.arg(1, &mut text) else {
        return None;
    };
    let Err(FillError::NotPresent) = rt.arg(2, &mut [0]) else {
        return None;
    };
    records::unit_of(&text[..n])
}

fn usage(rt: &impl Eprint) -> ExitCode {
    let _ = eprintln!(rt; "usage: spc UNIT <TRACE, where UNIT is a number of at most 4294967295");
    ExitCode::from(2)
}

// The programs: their status.
pub fn score(rt: &(impl Print + Eprint), reader: &mut impl Read) -> ExitCode {
    run(rt, reader, &ScoreSheet)
}

pub fn ledger(rt: &(impl Print + Eprint), reader: &mut impl Read) -> ExitCode {
    run(rt, reader, &WriteLedger)
}

pub fn copy(rt: &(impl Print + Eprint), reader: &mut impl Read) -> ExitCode {
    run(rt, reader, &CopySheet)
}

pub fn spc(rt: &(impl Print + Eprint + Env), reader: &mut impl Read) -> ExitCode {
    match argument(rt) {
        Some(unit) => run(rt, reader, &ListPages(unit)),
        None => usage(rt),
    }
}
