// Each line of a bid sheet against its key and its form: its value and where the next line starts, or its refusal.
// One that is not there, one that is not closed and one under another key are the same refusal.
ghost use Rattle.std.specs.Prelude.{◌≡◌, drop};
ghost use Rattle.terms.specs.Choice.{same};
ghost use Rattle.terms.specs.Policies.{number_of, policy_name};
ghost use Rattle.text.specs.Text.{bytes};
ghost use Rattle.sheets.specs.Number.{means};
ghost use Rattle.sheets.specs.Lines.{lines};
ghost use Rattle.sheets.specs.Bid.{policy_value, policy_meant, policy_line, size_line, cost_line, page_line};
ghost use Rattle.bid.specs.Answers.{KeyedAt, valued, ReadsLine};

use terms::limits;
use terms::policies::Policy;
use terms::refusals::Refusal;

// What stands behind its key in the line at a place, and where the next line starts. (The sheet and a place, here and
// below: document 01's few thin functions over a covered cursor.)
#[tactic(auto, using(crate::proofs::Keyed::keyed))]
fn under_key<'a>(sheet: &'a [u8], at: usize, key: &[u8]) -> Result<(&'a [u8], usize), Refusal>
    ensures { KeyedAt sheet.now at key.now result }
{
    let Some(end) = lines::line_at(sheet, at) else {
        return Err(Refusal::NoSuchLine);
    };
    let line = &sheet[at..end];
    if !text::starts_with(line, key) {
        return Err(Refusal::NoSuchLine);
    }
    Ok((&line[key.len()..], end + 1))
}

// Whether the bytes are the policy's name.
fn names(text: &[u8], policy: Policy) -> bool
    ensures { result ≡ same text.now (bytes (policy_name (number_of policy))) }
{
    text::equal(text, policy.name())
}

// The policy that the bytes name, or `blank` where they are none. A test for each name, as the definition asks them: each
// shows which policy it answers.
#[tactic(auto, using(crate::proofs::Keyed::blank))]
fn policy_value(text: &[u8], blank: u32) -> Result<u32, Refusal>
    ensures { valued result ≡ policy_meant (means blank) (policy_value text.now) }
{
    if text.is_empty() {
        return Ok(blank);
    }
    if names(text, Policy::Car) {
        return Ok(u32::from(Policy::Car));
    }
    if names(text, Policy::Cart) {
        return Ok(u32::from(Policy::Cart));
    }
    if names(text, Policy::Fifo) {
        return Ok(u32::from(Policy::Fifo));
    }
    if names(text, Policy::Clock) {
        return Ok(u32::from(Policy::Clock));
    }
    if names(text, Policy::Lru) {
        return Ok(u32::from(Policy::Lru));
    }
    Err(Refusal::PolicyNotKnown)
}

// The first line, in a reading where a blank means this policy. Any number may be handed in, so it stays one.
#[tactic(auto, using(crate::proofs::Readings::readings), unfolding(sheets::specs::Bid::policy_line))]
pub fn policy_line(sheet: &[u8], at: usize, blank: u32) -> Result<(u32, usize), Refusal>
    ensures { ReadsLine sheet.now at
        (policy_line (means blank) (lines (drop at sheet.now))) result }
{
    let (value, next) = under_key(sheet, at, b"policy=")?;
    let policy = policy_value(value, blank)?;
    Ok((policy, next))
}

// The size; below it the cost and a page. What the lines share is under_key: each has its own test and refusal.
#[tactic(auto, using(crate::proofs::Readings::readings), unfolding(sheets::specs::Bid::size_line))]
pub fn size_line(sheet: &[u8], at: usize) -> Result<(u32, usize), Refusal>
    ensures { ReadsLine sheet.now at (size_line (lines (drop at sheet.now))) result }
{
    let (value, next) = under_key(sheet, at, b"pages=")?;
    let Some(c) = numbers::whole(value) else {
        return Err(Refusal::NotInForm);
    };
    if !limits::known_size(c) {
        return Err(Refusal::SizeNotKnown);
    }
    Ok((c, next))
}

#[tactic(auto, using(crate::proofs::Readings::readings), unfolding(sheets::specs::Bid::cost_line))]
pub fn cost_line(sheet: &[u8], at: usize) -> Result<(u32, usize), Refusal>
    ensures { ReadsLine sheet.now at (cost_line (lines (drop at sheet.now))) result }
{
    let (value, next) = under_key(sheet, at, b"misscost=")?;
    let Some(cost) = numbers::miss_cost(value) else {
        return Err(Refusal::NotInForm);
    };
    Ok((cost, next))
}

// A page line, with so many page lines before it: one too many is refused whatever its value.
#[tactic(auto, using(crate::proofs::Readings::readings), unfolding(sheets::specs::Bid::page_line))]
pub fn page_line(sheet: &[u8], at: usize, before: u32) -> Result<(u32, usize), Refusal>
    ensures { ReadsLine sheet.now at (page_line before (lines (drop at sheet.now))) result }
{
    let (value, next) = under_key(sheet, at, b"page=")?;
    if limits::MOST_PAGES <= before as usize {
        return Err(Refusal::TooManyPages);
    }
    let Some(page) = numbers::whole(value) else {
        return Err(Refusal::NotInForm);
    };
    Ok((page, next))
}
