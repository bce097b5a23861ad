// Bid sheets through the copy, a file of data/ each: the answer, how the copy begins, and whether its other bytes are
// the sheet's and later bytes stayed. Then what the program prints of some.
use crate::show;
use std::io;
use std::rt::Files;
use terms::refusals::number_in;

// What the lent bytes hold before a call; no sheet has this byte.
const BEFORE: u8 = 7;

// The copy's first ten bytes; whether the bytes behind the key are at its end, and all later bytes stayed.
fn show_copy(rt: &impl Print, sheet: &[u8], out: &[u8], count: usize) -> io::Result<()> {
    if count == 0 {
        print!(rt; " out={}", show::stayed(out, BEFORE))?;
    } else if 10 <= count && count <= out.len() && 7 <= sheet.len() {
        let copy = &out[..count];
        print!(rt; " copy=")?;
        rt.write_all(&copy[..10])?;
        print!(rt; " others={}", show::same(copy.ends_with(&sheet[7..])))?;
        print!(rt; " rest={}", show::stayed(&out[count..], BEFORE))?;
    }
    Ok(())
}

fn copy(rt: &impl Print, name: &str, sheet: &[u8], out: &mut [u8]) -> io::Result<()> {
    let answer = copying::copy(sheet, out);
    let count = answer.unwrap_or(0);
    print!(rt; "{name}")?;
    show::refusal(rt, answer.err())?;
    print!(rt; " count={count}")?;
    show_copy(rt, sheet, out, count)?;
    println!(rt; "")
}

// The file into a buffer a byte longer than it must be.
fn file(rt: &(impl Print + Eprint + Files), name: &str) -> io::Result<()> {
    let mut sheet = [0; 16001];
    let sheet = show::load(rt, name, &mut sheet)?;
    copy(rt, name, sheet, &mut [BEFORE; 16001])
}

// The file into buffers of 0, 15,999 and 16,000 bytes. (The bid sheets' function of this name calls another operation on
// other lengths, which is all that either says.)
fn short_buffers(rt: &(impl Print + Eprint + Files), name: &str) -> io::Result<()> {
    let mut sheet = [0; 16001];
    let sheet = show::load(rt, name, &mut sheet)?;
    print!(rt; "0 bytes: ")?;
    copy(rt, name, sheet, &mut [])?;
    print!(rt; "15999 bytes: ")?;
    copy(rt, name, sheet, &mut [BEFORE; 15999])?;
    print!(rt; "16000 bytes: ")?;
    copy(rt, name, sheet, &mut [BEFORE; 16000])
}

// What the program prints of the file.
fn answer(rt: &(impl Print + Eprint + Files), name: &str, out: &mut [u8]) -> io::Result<()> {
    let mut sheet = [0; 16001];
    let sheet = show::load(rt, name, &mut sheet)?;
    let answer = copying::answer(sheet, out);
    let count = answer.unwrap_or(0);
    println!(rt; "{name} number={} printed={count}", number_in(answer))?;
    rt.write_all(&out[..count])
}

fn answers(rt: &(impl Print + Eprint + Files)) -> io::Result<()> {
    let mut out = [BEFORE; 16000];
    answer(rt, "policy-blank.bid", &mut out)?;
    answer(rt, "blank-page-wrong.bid", &mut out)?;
    answer(rt, "blank-bytes-15998.bid", &mut out)?;
    answer(rt, "policy-blank.bid", &mut [BEFORE; 15999])
}

const NAMED_SHEETS: [&str; 6] = [
    "worked.bid",
    "cart.bid",
    "fifo.bid",
    "clock.bid",
    "lru.bid",
    "bytes-16000.bid",
];

// The copy has three bytes more: 16,000 of 15,997, and 16,001, which is refused 7, of 15,998.
const BLANK_SHEETS: [&str; 5] = [
    "policy-blank.bid",
    "blank-no-page-lines.bid",
    "blank-bytes-15997.bid",
    "blank-bytes-15998.bid",
    "blank-bytes-16000.bid",
];

// Refused as the reader does: a wrong line further down comes before the copy's length, the sheet's own length before
// all.
const REFUSED_SHEETS: [&str; 9] = [
    "blank-policy-then-cr.bid",
    "policy-unknown.bid",
    "blank-open.bid",
    "blank-page-wrong.bid",
    "blank-bytes-15998-last-wrong.bid",
    "blank-thousand-and-one-pages.bid",
    "blank-bytes-16001.bid",
    "bytes-16001.bid",
    "empty.bid",
];

pub fn all(rt: &(impl Print + Eprint + Files)) -> io::Result<()> {
    for names in [&NAMED_SHEETS[..], &BLANK_SHEETS, &REFUSED_SHEETS] {
        for name in names {
            file(rt, name)?;
        }
    }
    short_buffers(rt, "policy-blank.bid")?;
    short_buffers(rt, "blank-bytes-15998.bid")?;
    short_buffers(rt, "empty.bid")?;
    answers(rt)
}
