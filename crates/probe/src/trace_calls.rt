// The call on a council's trace: read whole, made, and what it gave is sent: a refusal's number and line, or zeros.
// The pages come last, as they stand in what was lent.
use crate::Memory;
use crate::wire::Wire;
use std::io::Read;
use streams::Failed;

// Op 8: file, unit, pages.
pub fn take_pages(
    wire: &mut Wire<impl Print + Eprint, impl Read>,
    memory: &mut Memory,
) -> Result<(), Failed> {
    let file = wire.buffer(&mut memory.sheet)?;
    let unit = wire.word()?;
    let pages = wire.buffer(&mut memory.pages)?;
    let words = match council::pages(file, unit, pages) {
        Ok(count) => [0, 0, count],
        Err(r) => [u32::from(r.refusal), r.line, 0],
    };
    wire.put(&words);
    wire.put_buffer(pages);
    wire.send()
}
