// What the words of a list hold: where a page stands, how many entries have a flag, whether flags are in order.
// Nothing is written. The words and two numbers, and no slice of entries, here and in differing: FoundAt and FlagCounted
// say what the words hold from a on, and the entries are read at places of the whole.
ghost use Rattle.std.specs.Prelude.{◌≡◌, ◌+◌, ◌*◌, ◌≤◌, length, take, drop};
ghost use Rattle.terms.specs.Choice.{all_at_most};
ghost use Rattle.figures.specs.Words.{most_flags};
ghost use Rattle.figures.specs.Sound.{flag_words};
ghost use Rattle.entries.specs.Leaves.{FoundAt, FlagCounted};

use crate::{flags, header};

// The place of the first of the n entries from word a on that is for page.
pub fn find(dir: &[u32], a: usize, n: usize, page: u32) -> Option<usize>
    requires { (a + 2 * n ≤ length dir.now) × (length dir.now ≤ 4104) }
    ensures { FoundAt dir.now a n page result }
{
    // Not `(0..n).find(..)`: it took 6 to 39 % longer where measured, and a request's time is mostly this search.
    for i in 0..n {
        if dir[a + 2 * i] == page {
            return Some(i);
        }
    }
    None
}

// How many of the n entries from word a on have a flag.
pub fn count(dir: &[u32], a: usize, n: usize, flag: u32) -> u32
    requires { (a + 2 * n ≤ length dir.now) × (length dir.now ≤ 4104) × (1 ≤ flag) × (flag ≤ 2) }
    ensures { FlagCounted dir.now a n flag result }
{
    let mut sum = 0u32;
    for i in 0..n {
        sum += flags::counts(dir[a + 2 * i + 1], flag);
    }
    sum
}

// Whether the first n entries have no flags but the known ones.
pub fn flags_known(dir: &[u32], n: usize) -> bool
    requires { (8 + 2 * n ≤ length dir.now) × (length dir.now ≤ 4104) }
    ensures { result ≡ all_at_most most_flags (flag_words (take (2 * n) (drop 8 dir.now))) }
{
    (0..n).all(|i| dir[header::ENTRIES + 2 * i + 1] <= flags::MOST)
}

// Whether the words from a on are zero.
pub fn all_zero(dir: &[u32], a: usize) -> bool
    requires { a ≤ length dir.now }
    ensures { result ≡ all_at_most 0 (drop a dir.now) }
{
    dir[a..].iter().all(|&word| word == 0)
}
