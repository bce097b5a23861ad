// Each line of a trace, for one unit: the pages that it yields and where the next line starts, or why it is refused.
// What a line's answer means is in specs/Answers.
ghost use Rattle.std.specs.Prelude.{◌≡◌, ◌≤◌, ◌<◌, length};
ghost use Rattle.traces.specs.Touch.{first_page, last_page};
ghost use Rattle.records.specs.Answers.{beyond};
ghost use Rattle.council.specs.Answers.{Counted, LineRead};

use records::Record;
use terms::limits;
use terms::refusals::Refusal;

// A trace, and the unit whose reads count.
#[derive(Clone, Copy)]
pub struct Trace<'a> {
    pub file: &'a [u8],
    pub unit: u32,
}

// The pages of a line, in a row: the first, and how many there are (a Range could not end behind page 4,294,967,295);
// and where the next line starts.
#[derive(Clone, Copy, Debug, PartialEq, Eq)]
pub struct Yielded {
    pub first: u32,
    pub count: u32,
    pub next: usize,
}

const BLOCK_BYTES: u64 = 512;

const PAGE_BYTES: u64 = 4096;

// A line that yields no page.
fn no_pages(next: usize) -> Yielded
    ensures { result ≡ record { first = 0; count = 0; next = next } }
{
    Yielded {
        first: 0,
        count: 0,
        next,
    }
}

// The bytes that a record touches: so many, from its LBA on.
#[derive(Clone, Copy)]
struct Extent {
    lba: u64,
    size: u64,
    ghost known: { (lba ≤ beyond) × (size ≤ beyond) },
}

impl Extent {
    // The page of its first byte.
    fn first_page(self) -> u64
        ensures { result ≡ first_page self.lba }
    {
        BLOCK_BYTES * self.lba / PAGE_BYTES
    }

    // The page of its last byte.
    fn last_page(self) -> u64
        requires { 1 ≤ self.size }
        ensures { result ≡ last_page self.lba self.size }
    {
        (BLOCK_BYTES * self.lba + self.size - 1) / PAGE_BYTES
    }

    // What a record that counts yields, with so many pages before it; the next line starts at `next`.
    #[tactic(auto, using(crate::proofs::Counting::by_tests))]
    fn counted(self, before: u32, next: usize) -> Result<Yielded, Refusal>
        requires { before ≤ 1000 }
        ensures { Counted self.lba self.size before next result }
    {
        if self.size == 0 {
            return Ok(no_pages(next));
        }
        let first = self.first_page();
        let last = self.last_page();
        if limits::MOST_PAGE < last {
            return Err(Refusal::PageTooLarge);
        }
        let count = last - first + 1;
        // `as`, here and below: over u64::from the proof did not close.
        if (limits::MOST_PAGES as u64) < before as u64 + count {
            return Err(Refusal::TooManyPages);
        }
        Ok(Yielded {
            first: first as u32,
            count: count as u32,
            next,
        })
    }
}

impl<'a> Trace<'a> {
    // The line at a place, with so many pages before it: judged for its form, and counted where it is a read of the unit.
    pub fn record_line(self, at: usize, before: u32) -> Result<Yielded, Refusal>
        requires { (at < length self.file.now) × (before ≤ 1000) }
        ensures { LineRead self.entry.file.now at self.entry.unit before result }
    {
        let Some(end) = lines::line_at(self.file, at) else {
            return Err(Refusal::NoRecord);
        };
        match records::record_of(&self.file[at..end]) {
            Some(Record::Read(of, lba, size)) => {
                if of != self.unit as u64 {
                    return Ok(no_pages(end + 1));
                }
                Extent { lba, size }.counted(before, end + 1)
            }
            Some(Record::Write) => Ok(no_pages(end + 1)),
            None => Err(Refusal::NoRecord),
        }
    }
}
