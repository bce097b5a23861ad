// The numbers on a sheet: whole ones, and the miss cost with its comma.
// Both functions take any bytes; a number's form is the sheets' definition of it.
#![tactic(auto)]

ghost use Rattle.std.specs.Prelude.{◌≡◌, true, ◌+◌, ◌*◌, ◌≤◌, length};
ghost use Rattle.text.specs.Digits.{all_digits, value as worth};
ghost use Rattle.sheets.specs.Number.{digits_form, whole as meaning, miss_cost};
ghost use Rattle.numbers.specs.Meant.{meant};

use text::{digits, scan};

// At least one and at most so many digits, no leading zero except 0 itself.
fn in_form(text: &[u8], most: usize) -> bool
    ensures { result ≡ digits_form most text.now }
{
    let n = text.len();
    if n < 1 || most < n || !digits::all_digits(text) {
        return false;
    }
    n == 1 || text[0] != b'0'
}

// What digits are worth: ten of them fit.
fn value(text: &[u8]) -> u64
    requires digits { all_digits text.now ≡ true }
    requires at_most_ten { length text.now ≤ 10 }
    ensures { result ≡ worth text.now }
{
    digits::value_at_most(text, 9999999999)
}

pub fn whole(text: &[u8]) -> Option<u32>
    ensures { meant result ≡ meaning text.now }
{
    if !in_form(text, 10) {
        return None;
    }
    let n = value(text);
    u32::try_from(n).ok()
}

// Milliseconds and the three digits behind them, in thousandths.
fn thousandths(before: &[u8], after: &[u8]) -> u32
    requires four_before { (all_digits before.now ≡ true) × (length before.now ≤ 4) }
    requires three_after { (all_digits after.now ≡ true) × (length after.now ≤ 3) }
    ensures { result ≡ 1000 * worth before.now + worth after.now }
{
    (1000 * value(before) + value(after)) as u32
}

pub fn miss_cost(text: &[u8]) -> Option<u32>
    ensures { meant result ≡ miss_cost text.now }
{
    // Where no comma is, its place is the length, as the definition has it.
    let n = scan::find(text, b',').unwrap_or(text.len());
    if text.len() != n + 4 {
        return None;
    }
    let before = &text[..n];
    let after = &text[n + 1..];
    if !in_form(before, 4) || !digits::all_digits(after) {
        return None;
    }
    Some(thousandths(before, after))
}
