// A sheet's lines, read from the front: a cursor over the sheet, and the look-up by line number.
// Every function takes any bytes; the look-up hands back a part of the caller's own slice.
#![tactic(auto)]

ghost use Rattle.std.specs.Prelude.{◌≡◌, ◌-◌, ◌≤◌, length, take, drop};
ghost use Rattle.sheets.specs.LookUp.{value_in};
ghost use Rattle.sheets.specs.Refusals.{found_at, on_look_up};
ghost use Rattle.lines.specs.Cursor.{line_at, SpanOf};
ghost use Rattle.lines.specs.Stretch.{Stretch, LookedUp};

use terms::limits;
use terms::refusals::{Refusal, number_in};
use text::scan;

// A sheet and the place up to which it is read: a form that document 01 names, with the cursor that it asks.
#[derive(Clone, Copy)]
pub struct SheetReader<'a> {
    pub sheet: &'a [u8],
    pub at: usize,
}

impl<'a> SheetReader<'a> {
    // The next line: the reader is taken apart, and the cursor asked.
    fn next_line(self) -> Option<usize>
        ensures { result ≡ line_at self.entry.sheet.now self.entry.at }
    {
        line_from(self.sheet, self.at)
    }
}

// Where the value of a line stands in its sheet. Places and no slice: span_of, which docs/CONTRACTS.md names, answers
// them as numbers.
#[derive(Clone, Copy)]
pub struct Span {
    pub start: usize,
    pub stop: usize,
}

// The cursor: where the line that starts at this place is closed by its line feed.
fn line_from(sheet: &[u8], at: usize) -> Option<usize>
    ensures { result ≡ line_at sheet.now at }
{
    let far = scan::find(sheet.get(at..)?, b'\n')?;
    Some(at + far)
}

// The same with plain parameters, for callers that hold no reader.
pub fn line_at(sheet: &[u8], at: usize) -> Option<usize>
    ensures { result ≡ line_at sheet.now at }
{
    SheetReader { sheet, at }.next_line()
}

// The value of the line from `at` to its line feed at `end`: what follows the first `=`.
fn value_in(sheet: &[u8], at: usize, end: usize) -> Result<Span, Refusal>
    requires { (at ≤ end) × (end ≤ length sheet.now) }
    ensures { SpanOf sheet.now
        (found_at (value_in at (take (end - at) (drop at sheet.now)))) result }
{
    let Some(equals) = scan::find(&sheet[at..end], b'=') else {
        return Err(Refusal::NoSuchLine);
    };
    Ok(Span {
        start: at + equals + 1,
        stop: end,
    })
}

// Where the look-up's part stands, for callers that want no part: the lines before it are passed, one after another.
#[tactic(auto, using(crate::proofs::Spans::too_long))]
pub fn span_of(sheet: &[u8], line: u32) -> Result<Span, Refusal>
    ensures { SpanOf sheet.now (on_look_up sheet.now line) result }
{
    if limits::MOST_SHEET_BYTES < sheet.len() {
        return Err(Refusal::SheetTooLong);
    }
    let mut at = 0;
    for n in 1..=line {
        let Some(end) = line_at(sheet, at) else {
            return Err(Refusal::NoSuchLine);
        };
        if n == line {
            return value_in(sheet, at, end);
        }
        at = end + 1;
    }
    Err(Refusal::NoSuchLine)
}

// The look-up by line number, from 1: the part of the caller's slice that starts where the value does.
pub fn look_up(sheet: &[u8], line: u32) -> Result<&[u8], Refusal>
    ensures { LookedUp sheet.entry line result }
{
    let span = span_of(sheet, line)?;
    Ok(&sheet[span.start..span.stop])
}

// The look-up's part alone, for callers that keep no answer with a reference in it: empty, at the sheet's front, where
// the look-up is refused.
pub fn part_of(sheet: &[u8], line: u32) -> &[u8]
    ensures { Stretch sheet.entry
        (on_look_up sheet.now line).start (on_look_up sheet.now line).stop result }
{
    match look_up(sheet, line) {
        Ok(part) => part,
        Err(_) => &sheet[..0],
    }
}

// The look-up's number alone, out of its own answer.
pub fn number_of(sheet: &[u8], line: u32) -> u32
    ensures { result ≡ (on_look_up sheet.now line).number }
{
    number_in(look_up(sheet, line))
}
