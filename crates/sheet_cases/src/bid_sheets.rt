// Bid sheets through the reader, a file of data/ each: the answer, the pages read, and whether the other words stayed.
use crate::show;
use bid::Bid;
use std::io;
use std::rt::Files;

// What the lent words hold before a call; no sheet has this page.
const BEFORE: u32 = 77777;

// What is shown of a sheet that is refused.
const REFUSED: Bid = Bid {
    policy: 0,
    c: 0,
    cost: 0,
    count: 0,
};

fn read(rt: &impl Print, name: &str, sheet: &[u8], pages: &mut [u32]) -> io::Result<()> {
    let answer = bid::read(sheet, pages);
    let bid = answer.unwrap_or(REFUSED);
    print!(rt; "{name}")?;
    show::refusal(rt, answer.err())?;
    print!(rt;
        " policy={} c={} cost={} count={}",
        bid.policy, bid.c, bid.cost, bid.count
    )?;
    show::pages(rt, pages, bid.count as usize, BEFORE)?;
    println!(rt; "")
}

// The file into a page buffer a word longer than it must be.
fn file(rt: &(impl Print + Eprint + Files), name: &str) -> io::Result<()> {
    let mut sheet = [0; 16001];
    let mut pages = [BEFORE; 1001];
    let sheet = show::load(rt, name, &mut sheet)?;
    read(rt, name, sheet, &mut pages)
}

// Each of the files.
fn files(rt: &(impl Print + Eprint + Files), names: &[&str]) -> io::Result<()> {
    for name in names {
        file(rt, name)?;
    }
    Ok(())
}

// The file into page buffers of 0, 999 and 1,000 words.
fn short_buffers(rt: &(impl Print + Eprint + Files), name: &str) -> io::Result<()> {
    let mut sheet = [0; 16001];
    let sheet = show::load(rt, name, &mut sheet)?;
    print!(rt; "0 words: ")?;
    read(rt, name, sheet, &mut [])?;
    print!(rt; "999 words: ")?;
    read(rt, name, sheet, &mut [BEFORE; 999])?;
    print!(rt; "1000 words: ")?;
    read(rt, name, sheet, &mut [BEFORE; 1000])
}

// The worked sheet under each policy, and under none.
const GOOD_POLICIES: [&str; 6] = [
    "worked.bid",
    "cart.bid",
    "fifo.bid",
    "clock.bid",
    "lru.bid",
    "policy-blank.bid",
];

// Sheets that are read, at the ends of what is allowed.
const GOOD_SHEETS: [&str; 10] = [
    "no-page-lines.bid",
    "pages-1.bid",
    "pages-1024.bid",
    "page-0.bid",
    "page-largest.bid",
    "cost-zero.bid",
    "cost-under-one.bid",
    "cost-largest.bid",
    "thousand-pages.bid",
    "bytes-16000.bid",
];

// The policy is not known: 1 at line 1.
const POLICIES: [&str; 10] = [
    "policy-unknown.bid",
    "policy-upper-case.bid",
    "policy-then-space.bid",
    "policy-after-space.bid",
    "policy-half.bid",
    "policy-longer.bid",
    "policy-then-cr.bid",
    "blank-policy-then-cr.bid",
    "policy-then-nul.bid",
    "policy-non-ascii.bid",
];

// So one that is nearly `fifo`, `clock` or `lru`.
const LATER_POLICIES: [&str; 6] = [
    "policy-fifo-then-space.bid",
    "policy-lifo.bid",
    "policy-cloc.bid",
    "policy-clocks.bid",
    "policy-lru-upper-case.bid",
    "policy-number.bid",
];

// The size: 2 where it is a number out of range, 9 where it is none, at line 2.
const SIZES: [&str; 15] = [
    "pages-0.bid",
    "pages-1025.bid",
    "pages-largest.bid",
    "pages-over.bid",
    "pages-wrapping-to-2.bid",
    "pages-11-digits.bid",
    "pages-leading-zero.bid",
    "pages-two-zeros.bid",
    "pages-empty.bid",
    "pages-minus.bid",
    "pages-after-space.bid",
    "pages-second-equals.bid",
    "pages-then-cr.bid",
    "pages-then-nul.bid",
    "pages-non-ascii.bid",
];

// The miss cost is not in its form: 9 at line 3.
const COSTS: [&str; 16] = [
    "cost-without-comma.bid",
    "cost-point.bid",
    "cost-leading-zero.bid",
    "cost-two-zeros.bid",
    "cost-two-places.bid",
    "cost-four-places.bid",
    "cost-no-whole-part.bid",
    "cost-no-places.bid",
    "cost-five-digits.bid",
    "cost-two-commas.bid",
    "cost-empty.bid",
    "cost-letter.bid",
    "cost-minus.bid",
    "cost-then-cr.bid",
    "cost-then-nul.bid",
    "cost-non-ascii.bid",
];

// A page is not in its form: 9 at its line.
const PAGE_VALUES: [&str; 12] = [
    "page-over.bid",
    "page-11-digits.bid",
    "page-leading-zero.bid",
    "page-empty.bid",
    "page-plus.bid",
    "page-then-space.bid",
    "page-then-cr.bid",
    "page-then-nul.bid",
    "page-non-ascii.bid",
    "second-page-wrong.bid",
    "eighth-page-wrong.bid",
    "thousandth-page-wrong.bid",
];

// The first line is missing, open or without its key: 8.
const FIRST_LINES: [&str; 12] = [
    "empty.bid",
    "line-1-empty.bid",
    "line-1-open.bid",
    "line-1-other-key.bid",
    "line-1-no-equals.bid",
    "line-1-upper-case.bid",
    "line-1-space-after-key.bid",
    "line-1-space-before-key.bid",
    "line-1-nul-in-key.bid",
    "line-1-non-ascii-key.bid",
    "line-1-byte-order-mark.bid",
    "cr-alone-for-line-feed.bid",
];

// So the second and the third.
const SECOND_AND_THIRD_LINES: [&str; 11] = [
    "line-2-missing.bid",
    "line-2-open.bid",
    "line-2-empty.bid",
    "line-2-key-of-3.bid",
    "line-2-page.bid",
    "line-2-upper-case.bid",
    "line-3-missing.bid",
    "line-3-open.bid",
    "line-3-empty.bid",
    "line-3-space-after-key.bid",
    "line-3-other-key.bid",
];

// So the later ones.
const LATER_LINES: [&str; 12] = [
    "line-4-open.bid",
    "line-4-empty.bid",
    "line-4-pages.bid",
    "line-4-nul-in-key.bid",
    "line-4-cr-alone.bid",
    "line-5-open.bid",
    "line-5-empty.bid",
    "line-5-upper-case.bid",
    "no-final-line-feed.bid",
    "empty-line-at-the-end.bid",
    "line-1003-open.bid",
    "line-1003-other-key.bid",
];

// One page line too many, 5, and one byte too many, 7.
const TOO_MUCH: [&str; 5] = [
    "thousand-and-one-pages.bid",
    "thousand-and-one-last-wrong.bid",
    "thousand-and-one-last-open.bid",
    "bytes-16001.bid",
    "bytes-16001-wrong-first-line.bid",
];

// Two wrong lines, of which the first decides, or two faults in one line.
const TWO_FAULTS: [&str; 9] = [
    "policy-and-pages-wrong.bid",
    "pages-wrong-cost-missing.bid",
    "cost-wrong-page-open.bid",
    "page-wrong-then-key-wrong.bid",
    "key-wrong-then-page-wrong.bid",
    "thousand-and-one-fifth-line-wrong.bid",
    "key-and-value-wrong.bid",
    "unknown-policy-open.bid",
    "page-wrong-and-open.bid",
];

pub fn all(rt: &(impl Print + Eprint + Files)) -> io::Result<()> {
    files(rt, &GOOD_POLICIES)?;
    files(rt, &GOOD_SHEETS)?;
    files(rt, &POLICIES)?;
    files(rt, &LATER_POLICIES)?;
    files(rt, &SIZES)?;
    files(rt, &COSTS)?;
    files(rt, &PAGE_VALUES)?;
    files(rt, &FIRST_LINES)?;
    files(rt, &SECOND_AND_THIRD_LINES)?;
    files(rt, &LATER_LINES)?;
    files(rt, &TOO_MUCH)?;
    files(rt, &TWO_FAULTS)?;
    short_buffers(rt, "worked.bid")?;
    short_buffers(rt, "thousand-pages.bid")?;
    short_buffers(rt, "bytes-16001.bid")?;
    short_buffers(rt, "empty.bid")
}
