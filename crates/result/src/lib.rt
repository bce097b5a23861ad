// The result sheet's writer: any numbers, into lent bytes; bytes past the sheet's end stay.
// Every writer is total: refusals 1 and 6. What it promises is in specs/Promises.
#![tactic(auto)]

ghost use Rattle.std.specs.Prelude.{◌≡◌, [], ◌∷◌, ◌++◌};
ghost use Rattle.terms.specs.Policies.{policy_name};
ghost use Rattle.text.specs.Text.{bytes};
ghost use Rattle.sheets.specs.Result.{last_digit, decimal, milliseconds, line_of, result_sheet};
ghost use Rattle.result.specs.Place.{Fits, Puts};
ghost use Rattle.result.specs.Parts.{tally_lines};
ghost use Rattle.result.specs.Promises.{defined, line_for, WroteSheet, WroteRefusal, WroteRequest};

use terms::limits;
use terms::policies::Policy;
use terms::refusals::Refusal;

// The least number of lent bytes.
const LEAST: usize = limits::LEAST_RESULT_BYTES;

// What the sheet says, the wait in thousandths of a millisecond. Any numbers are written, so they stay numbers.
#[derive(Clone, Copy)]
pub struct Outcome {
    pub policy: u32,
    pub pages: u32,
    pub requests: u32,
    pub hits: u32,
    pub misses: u32,
    pub evictions: u32,
    pub steps: u32,
    pub wait: u64,
}

// What a ledger's line says of one request and its answer. Any numbers are written, so they stay numbers.
#[derive(Clone, Copy)]
pub struct Request {
    pub request: u32,
    pub page: u32,
    pub kind: u32,
    pub evicted: u32,
    pub list: u32,
    pub moves: u32,
}

// Lent bytes, and the place where the next text is put. No Vec: memory is lent.
#[derive(Drop)]
pub struct Place<'a> {
    pub out: &'a mut [u8],
    pub at: usize,
}

// Digits are put by hand: see put_number.
fn last_digit(n: u64) -> u8
    ensures { result ≡ last_digit n }
{
    (48 + n % 10) as u8
}

impl<'a> Place<'a> {
    // Puts a text.
    pub fn put(&mut self, text: &[u8])
        requires { Fits self.old text.now }
        ensures { Puts self.old text.now self.new }
    {
        let next = self.at + text.len();
        self.out[self.at..next].copy_from_slice(text);
        self.at = next;
    }

    // Puts one byte.
    fn put_byte(&mut self, byte: u8)
        requires { Fits self.old (byte ∷ []) }
        ensures { Puts self.old (byte ∷ []) self.new }
    {
        self.out[self.at] = byte;
        self.at += 1;
    }

    // Puts a number in digits: those before the last first, then the last. By hand: `write!` may answer an error and std's
    // text of a fixed size may be cut, so neither promises `decimal n`, and the crate itoa is written with `unsafe`.
    fn put_number(&mut self, n: u64)
        requires { Fits self.old (decimal n) }
        ensures { Puts self.old (decimal n) self.new }
    {
        if n < 10 {
            return self.put_byte(last_digit(n));
        }
        self.put_number(n / 10);
        self.put_byte(last_digit(n));
    }

    // Puts a name and a number.
    fn put_named(&mut self, name: &[u8], n: u32)
        requires { Fits self.old (name.now ++ decimal n) }
        ensures { Puts self.old (name.now ++ decimal n) self.new }
    {
        self.put(name);
        // `as`: over u64::from the proof did not close.
        self.put_number(n as u64);
    }

    // Puts a line: a key, a number, a line feed.
    pub fn put_line(&mut self, key: &[u8], n: u32)
        requires { Fits self.old (line_of key.now (decimal n)) }
        ensures { Puts self.old (line_of key.now (decimal n)) self.new }
    {
        self.put_named(key, n);
        self.put_byte(b'\n');
    }

    // Puts thousandths of a millisecond: the whole milliseconds, a comma, three digits.
    fn put_milliseconds(&mut self, thousandths: u64)
        requires { Fits self.old (milliseconds thousandths) }
        ensures { Puts self.old (milliseconds thousandths) self.new }
    {
        self.put_number(thousandths / 1000);
        let part = thousandths % 1000;
        let behind = [
            b',',
            last_digit(part / 100),
            last_digit(part / 10),
            last_digit(part),
        ];
        self.put(&behind);
    }

    // Puts a policy's name; a number that is no policy's has none.
    fn put_name(&mut self, policy: u32)
        requires { Fits self.old (bytes (policy_name policy)) }
        ensures { Puts self.old (bytes (policy_name policy)) self.new }
    {
        if let Ok(known) = Policy::try_from(policy) {
            self.put(known.name());
        }
    }

    fn put_policy(&mut self, policy: u32)
        requires { Fits self.old (line_of (bytes "policy=") (bytes (policy_name policy))) }
        ensures { Puts self.old (line_of (bytes "policy=") (bytes (policy_name policy))) self.new }
    {
        self.put(b"policy=");
        self.put_name(policy);
        self.put_byte(b'\n');
    }

    fn put_wait(&mut self, wait: u64)
        requires { Fits self.old (line_of (bytes "wait=") (milliseconds wait)) }
        ensures { Puts self.old (line_of (bytes "wait=") (milliseconds wait)) self.new }
    {
        self.put(b"wait=");
        self.put_milliseconds(wait);
        self.put_byte(b'\n');
    }

    // Puts the five lines of the run's tally.
    fn put_tally(&mut self, o: Outcome)
        requires { Fits self.old (tally_lines (defined o)) }
        ensures { Puts self.old (tally_lines (defined o)) self.new }
    {
        self.put_line(b"requests=", o.requests);
        self.put_line(b"hits=", o.hits);
        self.put_line(b"misses=", o.misses);
        self.put_line(b"evictions=", o.evictions);
        self.put_line(b"steps=", o.steps);
    }

    // Puts the whole sheet.
    fn put_sheet(&mut self, o: Outcome)
        requires { Fits self.old (result_sheet (defined o)) }
        ensures { Puts self.old (result_sheet (defined o)) self.new }
    {
        self.put_policy(o.policy);
        self.put_line(b"pages=", o.pages);
        self.put_tally(o);
        self.put_wait(o.wait);
    }

    // Puts a ledger's line.
    fn put_request(&mut self, r: Request)
        requires { Fits self.old (line_for r) }
        ensures { Puts self.old (line_for r) self.new }
    {
        self.put_named(b"request=", r.request);
        self.put_named(b" page=", r.page);
        self.put_named(b" kind=", r.kind);
        self.put_named(b" evicted=", r.evicted);
        self.put_named(b" list=", r.list);
        self.put_line(b" moves=", r.moves);
    }
}

// The result sheet of an outcome, in front of the lent bytes. Refusals 1 and 6.
pub fn write(out: &mut [u8], outcome: Outcome) -> Result<usize, Refusal>
    ensures { WroteSheet outcome out.old result out.new }
{
    Policy::try_from(outcome.policy)?;
    if out.len() < LEAST {
        return Err(Refusal::BufferTooShort);
    }
    let mut place = Place { out, at: 0 };
    place.put_sheet(outcome);
    Ok(place.at)
}

// The two lines of a refused bid sheet. Refusal 6.
#[tactic(auto, using(crate::proofs::Refused::text_short))]
pub fn write_refusal(out: &mut [u8], number: u32, line: u32) -> Result<usize, Refusal>
    ensures { WroteRefusal number line out.old result out.new }
{
    if out.len() < LEAST {
        return Err(Refusal::BufferTooShort);
    }
    let mut place = Place { out, at: 0 };
    place.put_line(b"refused=", number);
    place.put_line(b"line=", line);
    Ok(place.at)
}

// A ledger's line of one request and its answer. Refusal 6.
#[tactic(auto, using(crate::proofs::Refused::text_short))]
pub fn write_request(out: &mut [u8], request: Request) -> Result<usize, Refusal>
    ensures { WroteRequest request out.old result out.new }
{
    if out.len() < LEAST {
        return Err(Refusal::BufferTooShort);
    }
    let mut place = Place { out, at: 0 };
    place.put_request(request);
    Ok(place.at)
}
