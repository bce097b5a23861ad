// The bid sheet's reader. It is total: any bytes get an answer, and pages are written only when the whole sheet is
// known to be good. What it promises is in specs/Promises.
#![tactic(auto)]

ghost use Rattle.std.specs.Prelude.{◌≡◌, ◌≤◌, length, drop};
ghost use Rattle.sheets.specs.Number.{means};
ghost use Rattle.sheets.specs.Lines.{lines};
ghost use Rattle.sheets.specs.Bid.{pages_from, meaning_where};
ghost use Rattle.bid.specs.Answers.{at_line, CountedAs, PagesFilled, JudgedAs};
ghost use Rattle.bid.specs.Promises.{BidJudged, BidRead};

mod keyed_lines;

use terms::limits;
use terms::policies::Policy;
use terms::refusals::{Refusal, RefusedAt};

// An accepted sheet's words. The policy stays a number: a blank one is whatever number the caller of judge hands in. The
// count says how many lent words are filled: no heap.
#[derive(Clone, Copy)]
pub struct Bid {
    pub policy: u32,
    pub c: u32,
    pub cost: u32,
    pub count: u32,
}

// A line's answer, its refusal with the line's number.
fn at_line(read: Result<(u32, usize), Refusal>, line: u32) -> Result<(u32, usize), RefusedAt>
    ensures { result ≡ at_line line read }
{
    read.map_err(|refusal| refusal.at(line))
}

// Counts before any page is written: a wrong line further down leaves the buffer as it was. A cursor, as document 01
// names it: where the next line starts is said by the line before it.
fn count_pages(sheet: &[u8], start: usize) -> Result<u32, RefusedAt>
    ensures { CountedAs (pages_from 0 (lines (drop start sheet.now))) result }
{
    let mut at = start;
    let mut count = 0;
    while at < sheet.len() {
        let page = keyed_lines::page_line(sheet, at, count);
        let (_, next) = at_line(page, count + 4)?;
        at = next;
        count += 1;
    }
    Ok(count)
}

// Writes the pages of lines that are known to be good, by the same cursor.
fn fill(sheet: &[u8], start: usize, pages: &mut [u32])
    requires { 1000 ≤ length pages.old }
    ensures { PagesFilled sheet.now start pages.old pages.new }
{
    let mut at = start;
    let mut count = 0;
    while at < sheet.len() {
        let Ok((page, next)) = keyed_lines::page_line(sheet, at, count) else {
            return;
        };
        pages[count as usize] = page;
        at = next;
        count += 1;
    }
}

// Refusal 7, then the lines from the top: the first that is wrong decides. A blank policy is read as `blank`. Beside the
// bid stands where its page lines start.
fn judge_sheet(sheet: &[u8], blank: u32) -> Result<(Bid, usize), RefusedAt>
    ensures { JudgedAs sheet.now (meaning_where (means blank) sheet.now) result }
{
    if limits::MOST_SHEET_BYTES < sheet.len() {
        return Err(Refusal::SheetTooLong.at(0));
    }
    let (policy, second) = at_line(keyed_lines::policy_line(sheet, 0, blank), 1)?;
    let (c, third) = at_line(keyed_lines::size_line(sheet, second), 2)?;
    let (cost, fourth) = at_line(keyed_lines::cost_line(sheet, third), 3)?;
    let count = count_pages(sheet, fourth)?;
    let bid = Bid {
        policy,
        c,
        cost,
        count,
    };
    Ok((bid, fourth))
}

// Judges a bid sheet, in a reading where a blank policy means `blank`, any number: the reader's answer, for callers that
// want no pages.
pub fn judge(sheet: &[u8], blank: u32) -> Result<Bid, RefusedAt>
    ensures { BidJudged sheet.now blank result }
{
    let (bid, _) = judge_sheet(sheet, blank)?;
    Ok(bid)
}

// Reads a bid sheet, a blank policy as cart: refusals 6 and 7, then the lines from the top.
pub fn read(sheet: &[u8], pages: &mut [u32]) -> Result<Bid, RefusedAt>
    ensures { BidRead sheet.now pages.old result pages.new }
{
    if pages.len() < limits::MOST_PAGES {
        return Err(Refusal::BufferTooShort.at(0));
    }
    let (bid, start) = judge_sheet(sheet, u32::from(Policy::Cart))?;
    fill(sheet, start, pages);
    Ok(bid)
}
