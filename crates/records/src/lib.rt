// A line of a council's trace, by its fields: a read with its numbers, or a write; none where it is not in the form.
// Every line gets an answer, an enum that the reader takes apart where it stands.
#![tactic(auto)]

ghost use Rattle.std.specs.Prelude.{◌≡◌, MatchOption};
ghost use Rattle.traces.specs.Fields.{field, last, fields};
ghost use Rattle.traces.specs.Record.{is_integer, is_timestamp, opcode, record_from, record_of, asked};
ghost use Rattle.records.specs.Answers.{opcode_case, up_to_beyond, asked_case};

use text::digits;

// No number is told from a larger one from here on: it is no unit's, and an LBA or a size that large reaches a page
// that is too large.
pub const BEYOND: u64 = 35184372088832;

// A read with its unit, its LBA and its size, each at most BEYOND.
#[derive(Clone, Copy, Debug, PartialEq, Eq)]
pub enum Record {
    Read(u64, u64, u64),
    Write,
}

#[derive(Clone, Copy, Debug, PartialEq, Eq)]
pub enum Opcode {
    Reads,
    Writes,
}

#[tactic(auto, unfolding(traces::specs::Record::is_integer))]
fn is_integer(text: &[u8]) -> bool
    ensures { result ≡ is_integer text.now }
{
    1 <= text.len() && digits::all_digits(text)
}

fn is_timestamp(text: &[u8]) -> bool
    ensures { result ≡ is_timestamp text.now }
{
    let Some(n) = text::scan::find(text, b'.') else {
        return false;
    };
    is_integer(&text[..n]) && is_integer(&text[n + 1..])
}

fn opcode_of(text: &[u8]) -> Option<Opcode>
    ensures { opcode_case result ≡ opcode text.now }
{
    match text {
        b"R" | b"r" => Some(Opcode::Reads),
        b"W" | b"w" => Some(Opcode::Writes),
        _ => None,
    }
}

// The first field of a line, where a comma closes it, and what stands behind the comma.
fn first_field(line: &[u8]) -> Option<(&[u8], &[u8])>
    ensures { MatchOption result (fields line.now ≡ last line.now)
        (λ cut. fields line.now ≡ field cut.0.now (fields cut.1.now)) }
{
    let n = text::scan::find(line, b',')?;
    Some((&line[..n], &line[n + 1..]))
}

// The five fields that a record has to have.
#[tactic(auto, using(crate::proofs::Integers::integer_digits), unfolding(traces::specs::Record::record_from))]
fn record_from(
    unit: &[u8],
    lba: &[u8],
    size: &[u8],
    letter: &[u8],
    timestamp: &[u8],
) -> Option<Record>
    ensures { result ≡ up_to_beyond (record_from unit.now lba.now size.now
        letter.now timestamp.now) }
{
    if !is_integer(unit) || !is_integer(lba) || !is_integer(size) || !is_timestamp(timestamp) {
        return None;
    }
    match opcode_of(letter)? {
        Opcode::Reads => Some(Record::Read(
            digits::value_at_most(unit, BEYOND),
            digits::value_at_most(lba, BEYOND),
            digits::value_at_most(size, BEYOND),
        )),
        Opcode::Writes => Some(Record::Write),
    }
}

// The record of a line, without its line feed. The fifth field ends at the next comma or with the line.
pub fn record_of(line: &[u8]) -> Option<Record>
    ensures { result ≡ up_to_beyond (record_of line.now) }
{
    let (unit, behind_unit) = first_field(line)?;
    let (lba, behind_lba) = first_field(behind_unit)?;
    let (size, behind_size) = first_field(behind_lba)?;
    let (letter, rest) = first_field(behind_size)?;
    let timestamp = match first_field(rest) {
        Some((timestamp, _)) => timestamp,
        None => rest,
    };
    record_from(unit, lba, size, letter, timestamp)
}

// The unit that somebody asks for, in the form of a record's.
#[tactic(auto, using(crate::proofs::Integers::integer_digits), unfolding(traces::specs::Record::asked))]
pub fn unit_of(text: &[u8]) -> Option<u32>
    ensures { asked_case result ≡ asked text.now }
{
    if !is_integer(text) {
        return None;
    }
    u32::try_from(digits::value_at_most(text, BEYOND)).ok()
}
