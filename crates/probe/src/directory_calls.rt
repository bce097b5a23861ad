// The calls on a directory. Each reads its call whole, makes it and sends what it gave: a refusal's number, or 0, and
// after a refusal zeros for what it does not give.
use crate::Memory;
use crate::wire::Wire;
use std::io::Read;
use streams::Failed;
use terms::refusals::number_in;

// Op 1: policy, c, dir.
pub fn fresh(
    wire: &mut Wire<impl Print + Eprint, impl Read>,
    memory: &mut Memory,
) -> Result<(), Failed> {
    let policy = wire.word()?;
    let c = wire.word()?;
    let dir = wire.buffer(&mut memory.dir)?;
    let answer = directory::fresh(policy, c, dir);
    wire.put(&[number_in(answer)]);
    wire.put_buffer(dir);
    wire.send()
}

// Op 2: dir.
pub fn check(
    wire: &mut Wire<impl Print + Eprint, impl Read>,
    memory: &mut Memory,
) -> Result<(), Failed> {
    let dir = wire.buffer(&mut memory.dir)?;
    wire.put(&[number_in(directory::check(dir))]);
    wire.send()
}

// Op 3: dir, page.
pub fn request(
    wire: &mut Wire<impl Print + Eprint, impl Read>,
    memory: &mut Memory,
) -> Result<(), Failed> {
    let dir = wire.buffer(&mut memory.dir)?;
    let page = wire.word()?;
    let words = match directory::request(dir, page) {
        Ok(a) => [0, u32::from(a.kind), a.page, a.list, a.moves],
        Err(refusal) => [u32::from(refusal), 0, 0, 0, 0],
    };
    wire.put(&words);
    wire.put_buffer(dir);
    wire.send()
}

// Op 4: dir, trace, answers.
pub fn run(
    wire: &mut Wire<impl Print + Eprint, impl Read>,
    memory: &mut Memory,
) -> Result<(), Failed> {
    let dir = wire.buffer(&mut memory.dir)?;
    let trace = wire.buffer(&mut memory.pages)?;
    let answers = wire.buffer(&mut memory.answers)?;
    let words = match directory::run(dir, trace, answers) {
        Ok(t) => [0, t.requests, t.hits, t.misses, t.evictions, t.moves],
        Err(refusal) => [u32::from(refusal), 0, 0, 0, 0, 0],
    };
    wire.put(&words);
    wire.put_buffer(dir);
    wire.put_buffer(answers);
    wire.send()
}
