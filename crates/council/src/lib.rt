// The page numbers of one unit's reads, from a trace of the Storage Performance Council. It is total: any bytes get an
// answer, and pages are written only when the whole trace is known to be good. What it promises is in specs/Promises.
#![tactic(auto)]

ghost use Rattle.std.specs.Prelude.{◌≡◌, ◌+◌, ◌*◌, ◌≤◌, length};
ghost use Rattle.terms.specs.Choice.{numbers_from};
ghost use Rattle.sheets.specs.Lines.{lines};
ghost use Rattle.traces.specs.Trace.{pages_from};
ghost use Rattle.traces.specs.Refusals.{page_lines};
ghost use Rattle.result.specs.Put.{Put};
ghost use Rattle.council.specs.Answers.{size_in, size_of, PagesFilled};
ghost use Rattle.council.specs.Promises.{PagesTaken, PagesAnswered};

mod record_lines;

use record_lines::Trace;
use result::Place;
use terms::limits;
use terms::refusals::{Refusal, RefusedAt};

// The least number of lent bytes for a line `page=` of each page.
const LISTING: usize = 16 * limits::MOST_PAGES;

// Counts before any page is written: a wrong line further down leaves the buffer as it was. A cursor, as document 01
// names it: where the next line starts is said by the line before it.
fn count_pages(trace: Trace<'_>) -> Result<u32, RefusedAt>
    requires { length trace.file.now ≤ 16000 }
    ensures { size_in result ≡ size_of (pages_from trace.entry.unit 0 0
        (lines trace.entry.file.now)) }
{
    let mut at = 0;
    let mut line = 0;
    let mut count = 0;
    while at < trace.file.len() {
        line += 1;
        match trace.record_line(at, count) {
            Ok(read) => {
                count += read.count;
                at = read.next;
            }
            Err(refusal) => return Err(refusal.at(line)),
        }
    }
    Ok(count)
}

// Puts so many pages in a row from a place on, and answers the place behind them. By their places: what is written
// through an adapter of iter_mut, no proof knows afterwards (NOT_COVERED.md).
fn put_pages(pages: &mut [u32], at: usize, first: u32, count: u32) -> usize
    requires { (at + count ≤ length pages.old) × (first + count ≤ 4294967296) }
    ensures { Put pages.old at (numbers_from first count) pages.new result }
{
    for i in 0..count {
        pages[at + i as usize] = first + i;
    }
    at + count as usize
}

// Writes the pages of a trace that is known to be good, by the same cursor.
fn fill(trace: Trace<'_>, pages: &mut [u32])
    requires { 1000 ≤ length pages.old }
    ensures { PagesFilled trace.entry.file.now trace.entry.unit
        pages.old pages.new }
{
    let mut at = 0;
    let mut written = 0;
    while at < trace.file.len() {
        let Ok(read) = trace.record_line(at, written as u32) else {
            return;
        };
        written = put_pages(pages, written, read.first, read.count);
        at = read.next;
    }
}

// Takes the pages of the unit's reads to the front of the buffer, and answers how many there are. Refusals: 6 and 7,
// then the lines from the top.
pub fn pages(file: &[u8], unit: u32, pages: &mut [u32]) -> Result<u32, RefusedAt>
    ensures { PagesTaken file.now unit pages.old result pages.new }
{
    if pages.len() < limits::MOST_PAGES {
        return Err(Refusal::BufferTooShort.at(0));
    }
    if limits::MOST_TRACE_BYTES < file.len() {
        return Err(Refusal::SheetTooLong.at(0));
    }
    let trace = Trace { file, unit };
    let count = count_pages(trace)?;
    fill(trace, pages);
    Ok(count)
}

// Puts a line for each page.
fn put_page_lines(out: &mut [u8], pages: &[u32]) -> usize
    requires { 16 * length pages.now ≤ length out.old }
    ensures { Put out.old 0 (page_lines pages.now) out.new result }
{
    let mut place = Place { out, at: 0 };
    for page in pages {
        place.put_line(b"page=", *page);
    }
    place.at
}

// What the program spc prints, in front of out: a line for each page of the unit's reads, or the two lines of a
// refusal. Refusal 6.
pub fn answer(file: &[u8], unit: u32, buffer: &mut [u32], out: &mut [u8]) -> Result<usize, Refusal>
    ensures { PagesAnswered file.now unit buffer.old out.old
        result buffer.new out.new }
{
    if buffer.len() < limits::MOST_PAGES || out.len() < LISTING {
        return Err(Refusal::BufferTooShort);
    }
    match pages(file, unit, buffer) {
        Ok(count) => Ok(put_page_lines(out, &buffer[..count as usize])),
        Err(refused) => result::write_refusal(out, refused.refusal.into(), refused.line),
    }
}
