// The result sheet's writer, a refusal's two lines and a ledger's line: the answer, whether the bytes past the count
// stayed, and the bytes before it.
use crate::show;
use result::{Outcome, Request};
use std::io;
use terms::refusals::{Refusal, number_in};

// What the lent bytes hold before a call; no sheet has this byte.
pub const BEFORE: u8 = b'#';

pub fn written(
    rt: &impl Print,
    mark: &str,
    out: &[u8],
    answer: Result<usize, Refusal>,
) -> io::Result<()> {
    let number = number_in(answer);
    let count = answer.unwrap_or(0);
    print!(rt; "{mark}: number={number} count={count}")?;
    if count <= out.len() {
        println!(rt; " rest={}", show::stayed(&out[count..], BEFORE))?;
        rt.write_all(&out[..count])?;
    }
    Ok(())
}

// The worked run of document 01, under another policy or with another wait.
fn worked(policy: u32, wait: u64) -> Outcome {
    Outcome {
        policy,
        pages: 2,
        requests: 8,
        hits: 2,
        misses: 6,
        evictions: 4,
        steps: 6,
        wait,
    }
}

// The longest sheet: the longest name, and the largest numbers.
const LONGEST: Outcome = Outcome {
    policy: 4,
    pages: u32::MAX,
    requests: u32::MAX,
    hits: u32::MAX,
    misses: u32::MAX,
    evictions: u32::MAX,
    steps: u32::MAX,
    wait: u64::MAX,
};

fn sheet(rt: &impl Print, mark: &str, out: &mut [u8], outcome: Outcome) -> io::Result<()> {
    let answer = result::write(out, outcome);
    written(rt, mark, out, answer)
}

// Into 256 bytes, the fewest that are enough.
fn in_256_bytes(rt: &impl Print, mark: &str, outcome: Outcome) -> io::Result<()> {
    sheet(rt, mark, &mut [BEFORE; 256], outcome)
}

fn names(rt: &impl Print) -> io::Result<()> {
    in_256_bytes(rt, "worked", worked(1, 7500))?;
    in_256_bytes(rt, "cart", worked(2, 7500))?;
    in_256_bytes(rt, "fifo", worked(3, 7500))?;
    in_256_bytes(rt, "clock", worked(4, 7500))?;
    in_256_bytes(rt, "lru", worked(5, 7500))
}

fn sheets(rt: &impl Print) -> io::Result<()> {
    in_256_bytes(rt, "longest", LONGEST)?;
    in_256_bytes(rt, "wait 0", worked(1, 0))?;
    in_256_bytes(rt, "wait 999", worked(1, 999))?;
    in_256_bytes(rt, "wait 1000", worked(1, 1000))?;
    in_256_bytes(rt, "wait 10007", worked(1, 10007))?;
    in_256_bytes(rt, "policy 0", worked(0, 7500))?;
    in_256_bytes(rt, "policy 6", worked(6, 7500))?;
    sheet(rt, "255 bytes", &mut [BEFORE; 255], worked(1, 7500))?;
    sheet(
        rt,
        "255 bytes, policy 6",
        &mut [BEFORE; 255],
        worked(6, 7500),
    )
}

fn refusal(rt: &impl Print, mark: &str, out: &mut [u8], number: u32, line: u32) -> io::Result<()> {
    let answer = result::write_refusal(out, number, line);
    written(rt, mark, out, answer)
}

fn refusals(rt: &impl Print) -> io::Result<()> {
    refusal(rt, "refusal 9 at 3", &mut [BEFORE; 256], 9, 3)?;
    refusal(
        rt,
        "refusal, largest",
        &mut [BEFORE; 300],
        u32::MAX,
        u32::MAX,
    )?;
    refusal(rt, "refusal, 255 bytes", &mut [BEFORE; 255], 9, 3)
}

// A line of the worked run's ledger, and the longest.
const WORKED: Request = Request {
    request: 4,
    page: 3,
    kind: 2,
    evicted: 2,
    list: 1,
    moves: 2,
};

const LARGEST: Request = Request {
    request: u32::MAX,
    page: u32::MAX,
    kind: u32::MAX,
    evicted: u32::MAX,
    list: u32::MAX,
    moves: u32::MAX,
};

fn ledger_line(rt: &impl Print, mark: &str, out: &mut [u8], request: Request) -> io::Result<()> {
    let answer = result::write_request(out, request);
    written(rt, mark, out, answer)
}

fn ledger_lines(rt: &impl Print) -> io::Result<()> {
    ledger_line(rt, "ledger", &mut [BEFORE; 256], WORKED)?;
    ledger_line(rt, "ledger, largest", &mut [BEFORE; 256], LARGEST)?;
    ledger_line(rt, "ledger, 255 bytes", &mut [BEFORE; 255], WORKED)
}

pub fn all(rt: &impl Print) -> io::Result<()> {
    names(rt)?;
    sheets(rt)?;
    refusals(rt)?;
    ledger_lines(rt)
}
