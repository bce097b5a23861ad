// The public operations on calls from standard input; standard output gets what each gave, in words of four bytes.
// It ends with the input or after 100,000 calls; at a call that it cannot read it says so and fails.
#![tactic(auto)]

mod directory_calls;
mod sheet_calls;
mod trace_calls;
mod wire;

use crate::wire::Wire;
use std::io::Read;
use std::process::ExitCode;
use streams::Failed;

const MOST_CALLS: u32 = 100000;

// The memory that calls lend: enough for each.
#[derive(Drop)]
pub struct Memory {
    dir: [u32; 4200],
    pages: [u32; 1100],
    answers: [u32; 4500],
    sheet: [u8; 17000],
    out: [u8; 400],
}

// A call that was read up to its operation: the rest is read, made and answered. The operation is a number that comes
// from outside, so that a match tells which call it is.
fn answer(
    wire: &mut Wire<impl Print + Eprint, impl Read>,
    operation: u32,
    memory: &mut Memory,
) -> Result<(), Failed> {
    match operation {
        1 => directory_calls::fresh(wire, memory),
        2 => directory_calls::check(wire, memory),
        3 => directory_calls::request(wire, memory),
        4 => directory_calls::run(wire, memory),
        5 => sheet_calls::read_bid(wire, memory),
        6 => sheet_calls::look_up(wire, memory),
        7 => sheet_calls::write_result(wire, memory),
        8 => trace_calls::take_pages(wire, memory),
        _ => Err(wire.unreadable()),
    }
}

// Answers call after call.
fn calls(
    wire: &mut Wire<impl Print + Eprint, impl Read>,
    memory: &mut Memory,
) -> Result<(), Failed> {
    for _ in 0..MOST_CALLS {
        let Some(operation) = wire.operation()? else {
            return Ok(());
        };
        answer(wire, operation, memory)?;
    }
    Ok(())
}

// Lends memory that is enough for each call; the program's status.
pub fn probe(rt: &(impl Print + Eprint), input: &mut impl Read) -> ExitCode {
    let mut memory = Memory {
        dir: [0; 4200],
        pages: [0; 1100],
        answers: [0; 4500],
        sheet: [0; 17000],
        out: [0; 400],
    };
    let mut raw = [0; 68000];
    let mut wire = Wire::new(rt, input, &mut raw);
    match calls(&mut wire, &mut memory) {
        Ok(()) => ExitCode::SUCCESS,
        Err(Failed) => ExitCode::FAILURE,
    }
}

fn main(rt: HostRuntime) -> ExitCode {
    let mut stdin = rt.stdin();
    probe(&rt, &mut stdin)
}
