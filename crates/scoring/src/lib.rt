// What the programs score and ledger do between standard input and output, in memory that they lend.
// What a sheet comes to is specs/Scored; score and ledger are total, and what they promise is in specs/Promises.
#![tactic(auto)]

ghost use Rattle.std.specs.Prelude.{◌≡◌, ◌*◌};
ghost use Rattle.result.specs.Put.{Put};
ghost use Rattle.scoring.specs.Scored.{scored, ledgered, ledger_lines};
ghost use Rattle.scoring.specs.Refusals.{enough};
ghost use Rattle.scoring.specs.Ready.{Fitting, RanFresh, GoodBid, BidScored, Lent, AnsweredWith};
ghost use Rattle.scoring.specs.Ready.{too_little, Request, LinePut, Requests};
ghost use Rattle.scoring.specs.Promises.{SheetScored, SheetLedgered};

use bid::Bid;
use tally::Tally;
use terms::limits;
use terms::refusals::{Refusal, RefusedAt};

// The least numbers of lent words: a directory of 1,024 (8 + 4c words), and answers.
const WORDS: usize = 8 + 4 * limits::MOST_SIZE as usize;

const ANSWERS: usize = 4 * limits::MOST_PAGES;

// The least numbers of lent bytes: for what is printed of a sheet, for a line, and for a sheet with 1,000 lines.
const SHEET: usize = limits::LEAST_RESULT_BYTES;

const LINE: usize = limits::LEAST_RESULT_BYTES;

const LEDGER: usize = (limits::MOST_PAGES + 1) * LINE;

// How many requests were served, whose pages and answers stand in front of the lent words, or why and at which line the
// sheet is refused; and how many bytes stand in front of out, of a refused sheet, too.
#[derive(Clone, Copy)]
pub struct Scored {
    pub served: Result<u32, RefusedAt>,
    pub count: usize,
}

// The trace from a fresh directory.
fn replay(policy: u32, c: u32, trace: &[u32], dir: &mut [u32], answers: &mut [u32]) -> Tally
    requires { Fitting policy c dir.old trace.now answers.old }
    ensures { RanFresh policy c trace.now answers.old
        result dir.new answers.new }
{
    directory::fresh(policy, c, dir).unwrap();
    directory::run(dir, trace, answers).unwrap()
}

// Misses at a cost each.
fn wait(misses: u32, cost: u32) -> u64
    ensures { result ≡ misses * cost }
{
    u64::from(misses) * u64::from(cost)
}

// Replays a good bid, and writes its result sheet.
fn score_bid(
    bid: Bid,
    pages: &[u32],
    dir: &mut [u32],
    answers: &mut [u32],
    out: &mut [u8],
) -> Scored
    requires { GoodBid bid pages.now dir.old answers.old out.old }
    ensures { BidScored bid pages.now dir.old answers.old out.old
        result dir.new answers.new out.new }
{
    let words = 8 + 4 * bid.c as usize;
    let requests = bid.count as usize;
    let t = replay(
        bid.policy,
        bid.c,
        &pages[..requests],
        &mut dir[..words],
        answers,
    );
    let count = result::write(
        out,
        result::Outcome {
            policy: bid.policy,
            pages: bid.c,
            requests: t.requests,
            hits: t.hits,
            misses: t.misses,
            evictions: t.evictions,
            steps: t.moves,
            wait: wait(t.misses, bid.cost),
        },
    )
    .unwrap();
    Scored {
        served: Ok(bid.count),
        count,
    }
}

// Scores a sheet in memory that is enough: what is to be printed stands in front of out. The four lent slices stay
// parameters: docs/CONTRACTS.md names score and ledger with them, and the ledger lends a part of out on.
fn score_sheet(
    sheet: &[u8],
    pages: &mut [u32],
    dir: &mut [u32],
    answers: &mut [u32],
    out: &mut [u8],
) -> Scored
    requires { Lent 256 pages.old dir.old answers.old out.old }
    ensures { AnsweredWith (scored sheet.now) sheet.now
        pages.old dir.old answers.old out.old
        result pages.new dir.new answers.new out.new }
{
    match bid::read(sheet, pages) {
        Ok(bid) => score_bid(bid, pages, dir, answers, out),
        Err(refused) => {
            let number = u32::from(refused.refusal);
            let count = result::write_refusal(out, number, refused.line).unwrap();
            Scored {
                served: Err(refused),
                count,
            }
        }
    }
}

// Puts the ledger's line of request i, counted from 0, at a place, and answers the place behind it. By a place and not by
// result::Place: write_request is lent 256 bytes of its own, whole.
fn put_request(out: &mut [u8], at: usize, pages: &[u32], answers: &[u32], i: usize) -> usize
    requires { Request i at pages.now answers.now out.old }
    ensures { LinePut i at pages.now answers.now out.old result out.new }
{
    let word = 4 * i;
    let request = result::Request {
        request: i as u32 + 1,
        page: pages[i],
        kind: answers[word],
        evicted: answers[word + 1],
        list: answers[word + 2],
        moves: answers[word + 3],
    };
    at + result::write_request(&mut out[at..at + LINE], request).unwrap()
}

// Puts a line for each request from a place on, and answers the place behind the last.
fn put_requests(out: &mut [u8], at: usize, pages: &[u32], answers: &[u32]) -> usize
    requires { Requests at pages.now answers.now out.old }
    ensures { Put out.old at (ledger_lines 1 pages.now answers.now)
        out.new result }
{
    let mut next = at;
    for i in 0..pages.len() {
        next = put_request(out, next, pages, answers, i);
    }
    next
}

// The ledger of a sheet in memory that is enough: what score prints, and behind it a line for each request.
fn ledger_sheet(
    sheet: &[u8],
    pages: &mut [u32],
    dir: &mut [u32],
    answers: &mut [u32],
    out: &mut [u8],
) -> Scored
    requires { Lent (256 * 1001) pages.old dir.old answers.old out.old }
    ensures { AnsweredWith (ledgered sheet.now) sheet.now
        pages.old dir.old answers.old out.old
        result pages.new dir.new answers.new out.new }
{
    let Scored { served, count } = score_sheet(sheet, pages, dir, answers, &mut out[..SHEET]);
    let requests = served.unwrap_or(0) as usize;
    let words = 4 * requests;
    let count = put_requests(out, count, &pages[..requests], &answers[..words]);
    Scored { served, count }
}

// An answer where the lent memory is not enough: nothing is printed, and no line of the sheet is to blame.
fn too_little() -> Scored
    ensures { result ≡ too_little }
{
    Scored {
        served: Err(Refusal::BufferTooShort.at(0)),
        count: 0,
    }
}

// Whether the lent memory is enough for any bid, with at least so many bytes to print into.
fn lends_enough(least: usize, pages: &[u32], dir: &[u32], answers: &[u32], out: &[u8]) -> bool
    ensures { result ≡ enough least pages.now dir.now
        answers.now out.now }
{
    limits::MOST_PAGES <= pages.len()
        && (WORDS <= dir.len() && (ANSWERS <= answers.len() && least <= out.len()))
}

// Scores a sheet: what is to be printed stands in front of out. Refusal 6 for too little memory, then the sheet's own.
// (score and ledger differ in the least bytes and in the step, which is all that they say.)
pub fn score(
    sheet: &[u8],
    pages: &mut [u32],
    dir: &mut [u32],
    answers: &mut [u32],
    out: &mut [u8],
) -> Scored
    ensures { SheetScored sheet.now
        pages.old dir.old answers.old out.old
        result pages.new dir.new answers.new out.new }
{
    if !lends_enough(SHEET, pages, dir, answers, out) {
        return too_little();
    }
    score_sheet(sheet, pages, dir, answers, out)
}

// The same with the ledger in front of out, which has to be longer.
pub fn ledger(
    sheet: &[u8],
    pages: &mut [u32],
    dir: &mut [u32],
    answers: &mut [u32],
    out: &mut [u8],
) -> Scored
    ensures { SheetLedgered sheet.now
        pages.old dir.old answers.old out.old
        result pages.new dir.new answers.new out.new }
{
    if !lends_enough(LEDGER, pages, dir, answers, out) {
        return too_little();
    }
    ledger_sheet(sheet, pages, dir, answers, out)
}
