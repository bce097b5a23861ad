// The four lists in the words: a head to a tail, a page to a tail, a page back from a history, a head dropped.
// Lists are named by number in their order; list i + 2 is the history of list i.
//
// They stay numbers: list i has its length in word T1_LENGTH + i, and the contracts and docs/CONTRACTS.md speak of list i.
// Room stays a clause of each function: docs/CONTRACTS.md, "Moving an entry", names five of them, which may ask no more.
// `as usize`, here and elsewhere: a word is no usize by From.
ghost use Rattle.std.specs.Prelude.{◌≡◌, ◌+◌, ◌≤◌, ◌<◌, length, get_or};
ghost use Rattle.figures.specs.Entry.{cleared};
ghost use Rattle.figures.specs.Directory.{T1 as FirstClock, T2 as SecondClock, place_new};
ghost use Rattle.engine.specs.Shown.{Makes};
ghost use Rattle.engine.specs.Heads.{head_to};
ghost use Rattle.entries.specs.Holds.{Holds};
ghost use Rattle.entries.specs.Stretches.{Room, start_of};
ghost use Rattle.entries.specs.Leaves.{FoundIn, HeadMoved, CameBack, ListHeadDropped, Marked};

use crate::{flags, header, search, stretch};

pub const T1: usize = 0;

pub const T2: usize = 1;

pub const B1: usize = 2;

pub const B2: usize = 3;

// Where a list after the last would start.
pub const END: usize = 4;

// The word at which list i starts; list 4 would start after the last entry.
pub fn start_of(dir: &[u32], i: usize) -> usize
    requires { Room dir.now }
    ensures { result ≡ start_of i dir.now }
{
    let n1 = dir[header::T1_LENGTH] as usize;
    let n2 = dir[header::T2_LENGTH] as usize;
    let k1 = dir[header::B1_LENGTH] as usize;
    let k2 = dir[header::B2_LENGTH] as usize;
    match i {
        T1 => header::ENTRIES,
        T2 => header::ENTRIES + 2 * n1,
        B1 => header::ENTRIES + 2 * (n1 + n2),
        B2 => header::ENTRIES + 2 * (n1 + n2 + k1),
        _ => header::ENTRIES + 2 * (n1 + n2 + (k1 + k2)),
    }
}

// The place of page in list i.
pub fn find(dir: &[u32], i: usize, page: u32) -> Option<usize>
    requires room { Room dir.now }
    requires i_bound { i ≤ 3 }
    ensures { FoundIn i page dir.now result }
{
    let a = start_of(dir, i);
    let n = dir[header::T1_LENGTH + i] as usize;
    search::find(dir, a, n, page)
}

// The head of list i, with new flags, becomes the tail of list j, which is the same list or a later one.
pub fn move_head(dir: &mut [u32], i: usize, j: usize, flags: u32)
    requires room { Room dir.old }
    requires clock_has_head { (i ≤ 1) × (i ≤ j) × (j ≤ 3) × (1 ≤ get_or dir.old (4 + i) 0) }
    ensures { HeadMoved i j flags dir.old dir.new }
{
    let a = start_of(dir, i);
    let e = start_of(dir, j + 1);
    let n = dir[header::T1_LENGTH + i];
    let m = dir[header::T1_LENGTH + j];
    stretch::to_end(dir, a, e, flags);
    if i < j {
        dir[header::T1_LENGTH + i] = n - 1;
        dir[header::T1_LENGTH + j] = m + 1;
    }
}

// T2's head, its bit cleared, becomes T1's tail: only the border between them moves.
pub fn t2_head_to_t1(dir: &mut [u32])
    requires room { Room dir.old }
    requires t2_has_head { 1 ≤ get_or dir.old 5 0 }
    ensures { Makes Holds (head_to SecondClock FirstClock cleared) dir.old dir.new }
{
    let n1 = dir[header::T1_LENGTH];
    let n2 = dir[header::T2_LENGTH];
    let at = header::ENTRIES + 2 * n1 as usize + 1;
    dir[at] = flags::cleared(dir[at]);
    dir[header::T1_LENGTH] = n1 + 1;
    dir[header::T2_LENGTH] = n2 - 1;
}

// A new page becomes T1's tail.
pub fn place_new(dir: &mut [u32], page: u32)
    requires room { Room dir.old }
    requires room_for_one { start_of 4 dir.old + 2 ≤ length dir.old }
    ensures { Makes Holds (place_new page) dir.old dir.new }
{
    let a = start_of(dir, T2);
    let e = start_of(dir, END);
    let n = dir[header::T1_LENGTH];
    stretch::put_in(dir, a, e + 2, page, flags::NEW_SHORT);
    dir[header::T1_LENGTH] = n + 1;
}

// Entry k of the history b, which is for page, becomes the tail of list t with new flags.
pub fn come_back(dir: &mut [u32], b: usize, k: usize, t: usize, page: u32, flags: u32)
    requires room { Room dir.old }
    requires from_history { (t ≤ 1) × (2 ≤ b) × (b ≤ 3) × (k < get_or dir.old (4 + b) 0) }
    ensures { CameBack b k t page flags dir.old dir.new }
{
    let a = start_of(dir, t + 1);
    let e = start_of(dir, b) + 2 * k + 2;
    let n = dir[header::T1_LENGTH + t];
    let m = dir[header::T1_LENGTH + b];
    stretch::put_in(dir, a, e, page, flags);
    dir[header::T1_LENGTH + t] = n + 1;
    dir[header::T1_LENGTH + b] = m - 1;
}

// The head of list b is dropped.
pub fn drop_head(dir: &mut [u32], b: usize)
    requires room { Room dir.old }
    requires has_head { (b ≤ 3) × (1 ≤ get_or dir.old (4 + b) 0) }
    ensures { ListHeadDropped b dir.old dir.new }
{
    let a = start_of(dir, b);
    let e = start_of(dir, END);
    let n = dir[header::T1_LENGTH + b];
    stretch::take_out(dir, a, e);
    dir[header::T1_LENGTH + b] = n - 1;
}

// The reference bit of entry k of T1 and T2 together is set.
pub fn mark(dir: &mut [u32], k: usize)
    requires room { Room dir.old }
    requires k_cached { k < get_or dir.old 4 0 + get_or dir.old 5 0 }
    ensures { Marked k dir.old dir.new }
{
    let at = header::ENTRIES + 2 * k + 1;
    dir[at] = flags::marked(dir[at]);
}
