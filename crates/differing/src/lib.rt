// "All listed pages differ": from the last entry to the first, each page is looked for behind it.
// Only a page that may have been seen is searched for, so that nearly all cost the same, however long the lists are.
#![tactic(auto)]

ghost use Rattle.std.specs.Prelude.{◌≡◌, ◌+◌, ◌*◌, ◌≤◌, ◌<◌, length};
ghost use Rattle.figures.specs.Entry.{differ};
ghost use Rattle.entries.specs.Leaves.{OfEntries};
ghost use Rattle.differing.specs.Behind.{LookedBehind};

use entries::{header, search};

mod seen;

// Whether the page of entry i stands behind it once more, where all pages behind it were noted.
fn stands_behind(dir: &[u32], n: usize, i: usize, noted: &[u32; seen::WORDS]) -> bool
    requires { (8 + 2 * n ≤ length dir.now) × (length dir.now ≤ 4104) × (i < n) }
    ensures { LookedBehind dir.now n i noted.now result }
{
    let at = header::ENTRIES + 2 * i;
    seen::may_have(noted, dir[at]) && search::find(dir, at + 2, n - i - 1, dir[at]).is_some()
}

// Whether the pages of the first n entries differ.
pub fn pages_differ(dir: &[u32], n: usize) -> bool
    requires { (8 + 2 * n ≤ length dir.now) × (length dir.now ≤ 4104) }
    ensures { OfEntries dir.now 8 n (λ l. result ≡ differ l) }
{
    let mut noted = [0u32; seen::WORDS];
    for i in (0..n).rev() {
        if stands_behind(dir, n, i, &noted) {
            return false;
        }
        seen::note(&mut noted, dir[header::ENTRIES + 2 * i]);
    }
    true
}
