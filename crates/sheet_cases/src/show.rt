// What the cases share: a file's bytes, a refusal's number and line, whether lent memory stayed, the pages that a call
// put in front of it.
use std::rt::Files;
use std::{fs, io};
use terms::refusals::RefusedAt;

// The file's bytes, put at the start of the buffer; none where it cannot be read.
pub fn load<'b>(
    rt: &(impl Print + Eprint + Files),
    name: &str,
    buffer: &'b mut [u8],
) -> io::Result<&'b [u8]> {
    let Ok(mut file) = fs::open(rt, name) else {
        print!(rt; "no file ")?;
        return Ok(&[]);
    };
    match streams::read_from(rt, &mut file, name.as_bytes(), buffer) {
        Ok(n) => Ok(&buffer[..n]),
        Err(_) => Ok(&[]),
    }
}

// The number and the line of a refusal; zeros where there is none.
pub fn refusal(rt: &impl Print, refused: Option<RefusedAt>) -> io::Result<()> {
    let number = refused.map_or(0, |r| u32::from(r.refusal));
    let line = refused.map_or(0, |r| r.line);
    print!(rt; " number={number} line={line}")
}

pub fn same(same: bool) -> &'static str {
    if same { "same" } else { "changed" }
}

// Whether lent memory holds what it held before.
pub fn stayed<T: PartialEq + Copy>(lent: &[T], before: T) -> &'static str {
    same(lent.iter().all(|now| *now == before))
}

// The first and the last page and their sum, where there are pages, and whether all later words stayed as before.
pub fn pages(rt: &impl Print, pages: &[u32], count: usize, before: u32) -> io::Result<()> {
    if count == 0 {
        print!(rt; " buffer={}", stayed(pages, before))?;
    } else if count <= pages.len() {
        let (first, last) = (pages[0], pages[count - 1]);
        let sum = pages[..count]
            .iter()
            .fold(0u64, |sum, page| sum.wrapping_add(u64::from(*page)));
        print!(rt; " first={first} last={last} sum={sum}")?;
        print!(rt; " rest={}", stayed(&pages[count..], before))?;
    }
    Ok(())
}
