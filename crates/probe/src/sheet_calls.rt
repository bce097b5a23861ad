// The calls on sheets. Each reads its call whole, makes it and sends what it gave: a refusal's number, or 0, and after
// a refusal zeros for what it does not give.
use crate::Memory;
use crate::wire::Wire;
use std::io::Read;
use streams::Failed;

// Op 5: sheet, pages.
pub fn read_bid(
    wire: &mut Wire<impl Print + Eprint, impl Read>,
    memory: &mut Memory,
) -> Result<(), Failed> {
    let sheet = wire.buffer(&mut memory.sheet)?;
    let pages = wire.buffer(&mut memory.pages)?;
    let words = match bid::read(sheet, pages) {
        Ok(b) => [0, 0, b.policy, b.c, b.cost, b.count],
        Err(r) => [u32::from(r.refusal), r.line, 0, 0, 0, 0],
    };
    wire.put(&words);
    wire.put_buffer(pages);
    wire.send()
}

// Op 6: sheet, line.
pub fn look_up(
    wire: &mut Wire<impl Print + Eprint, impl Read>,
    memory: &mut Memory,
) -> Result<(), Failed> {
    let sheet = wire.buffer(&mut memory.sheet)?;
    let line = wire.word()?;
    wire.put(&[lines::number_of(sheet, line)]);
    wire.put_count(lines::span_of(sheet, line).map_or(0, |span| span.start));
    wire.put_buffer(lines::part_of(sheet, line));
    wire.send()
}

// Op 7: policy, pages, requests, hits, misses, evictions, steps, wait (the low word first), out.
pub fn write_result(
    wire: &mut Wire<impl Print + Eprint, impl Read>,
    memory: &mut Memory,
) -> Result<(), Failed> {
    let [
        policy,
        pages,
        requests,
        hits,
        misses,
        evictions,
        steps,
        low,
        high,
    ] = wire.words::<9>()?;
    let out = wire.buffer(&mut memory.out)?;
    let outcome = result::Outcome {
        policy,
        pages,
        requests,
        hits,
        misses,
        evictions,
        steps,
        wait: u64::from(high) << 32 | u64::from(low),
    };
    match result::write(out, outcome) {
        Ok(count) => {
            wire.put(&[0u32]);
            wire.put_count(count);
        }
        Err(refusal) => wire.put(&[u32::from(refusal), 0]),
    }
    wire.put_buffer(out);
    wire.send()
}
