// Which pages were seen, as a set of bits: two for each page, so that a page may have been seen only if both are set.
// A page that was noted always has both. Others may have them too, which costs a search and changes no answer.
ghost use Rattle.std.specs.Prelude.{◌≡◌, ◌<◌, eqb, length, true};
ghost use Rattle.differing.specs.Seen.{seen_words, places, low_place, mixed_place, bit_at, BitsKept, Noted};

// 4 KiB, so 32,768 bits.
pub const WORDS: usize = 1024;

// The place of a page's first bit: pages that follow each other have different ones.
fn low_place(page: u32) -> usize
    ensures { result ≡ low_place page }
{
    (page % 32768) as usize
}

// The place of its second bit, which depends on all its digits.
fn mixed_place(page: u32) -> usize
    ensures { result ≡ mixed_place page }
{
    (u64::from(page) * 2654435769 % 4294967296 / 131072) as usize
}

fn is_set(seen: &[u32; WORDS], place: usize) -> bool
    requires { place < places }
    ensures { result ≡ eqb (bit_at seen.now place) 1 }
{
    (seen[place / 32] >> (place % 32)) % 2 == 1
}

fn set(seen: &mut [u32; WORDS], place: usize)
    requires { (place < places) × (length seen.old ≡ seen_words) }
    ensures { (bit_at seen.new place ≡ 1) × BitsKept seen.old seen.new }
{
    seen[place / 32] |= 1 << (place % 32);
}

// Notes a page: both its bits are set, and those that were set stay so.
pub fn note(seen: &mut [u32; WORDS], page: u32)
    requires { length seen.old ≡ seen_words }
    ensures { Noted page seen.new × BitsKept seen.old seen.new }
{
    set(seen, low_place(page));
    set(seen, mixed_place(page));
}

// Whether a page may have been noted: if it was, then yes.
pub fn may_have(seen: &[u32; WORDS], page: u32) -> bool
    ensures { Noted page seen.now → result ≡ true }
{
    is_set(seen, low_place(page)) && is_set(seen, mixed_place(page))
}
