// The look-up by line number: its number, where its part starts and stops in the sheet, and the part's bytes.
use crate::show;
use lines::Span;
use std::io;
use std::rt::Files;
use terms::refusals::number_in;

// What is shown of a look-up that is refused.
const REFUSED: Span = Span { start: 0, stop: 0 };

fn look_up(rt: &impl Print, name: &str, sheet: &[u8], line: u32) -> io::Result<()> {
    let answer = lines::span_of(sheet, line);
    let number = number_in(answer);
    let span = answer.unwrap_or(REFUSED);
    print!(rt;
        "{name} look-up={line} number={number} start={} stop={}",
        span.start, span.stop
    )?;
    print!(rt; " part=[")?;
    rt.write_all(lines::part_of(sheet, line))?;
    println!(rt; "]")
}

// Some lines of a file, which is loaded for each: where it is missing, each says so.
fn look_ups(rt: &(impl Print + Eprint + Files), name: &str, lines: &[u32]) -> io::Result<()> {
    for line in lines {
        let mut sheet = [0; 16001];
        let sheet = show::load(rt, name, &mut sheet)?;
        look_up(rt, name, sheet, *line)?;
    }
    Ok(())
}

pub fn all(rt: &(impl Print + Eprint + Files)) -> io::Result<()> {
    // The worked sheet has 11 lines.
    look_ups(rt, "worked.bid", &[0, 1, 2, 3, 4, 11, 12, u32::MAX])?;
    look_ups(rt, "no-final-line-feed.bid", &[10, 11])?;

    // Keys and values are not judged; a line has to be closed and have a `=`.
    look_ups(rt, "odd-lines.txt", &[1, 2, 3, 4, 5, 6, 7, 8, 9])?;
    look_ups(rt, "one-line-feed.txt", &[1, 2])?;
    look_ups(rt, "empty.bid", &[0, 1])?;

    // A sheet too long is refused first.
    look_ups(rt, "thousand-pages.bid", &[1003, 1004])?;
    look_ups(rt, "bytes-16000.bid", &[1001, 1002])?;
    look_ups(rt, "bytes-16001.bid", &[0, 1])
}
