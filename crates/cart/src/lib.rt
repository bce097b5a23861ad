// CART, Figure 3, in lent words: evict by its two passes and the demotion, then trim and place.
// n_S and n_L are counted once and then kept as the figure keeps them.
//
// Room, Passing and Freed stay clauses, and dir and kept two parameters: the kit has no ghost field beside a `&mut`
// (NOT_COVERED.md), and the demotion ends Passing.
#![tactic(auto)]

ghost use Rattle.std.specs.Prelude.{◌≡◌, true, false, ◌+◌, ◌-◌, ◌*◌, ◌≤◌, length, get_or};
ghost use Rattle.terms.specs.Policies.{cart};
ghost use Rattle.figures.specs.Entry.{Entry};
ghost use Rattle.figures.specs.Directory.{Directory, unit};
ghost use Rattle.figures.specs.Words.{flags, decode, n_t1, n_b1};
ghost use Rattle.figures.specs.Cart as Cart;
ghost use Rattle.figures.specs.Policy.{cart_policy};
ghost use Rattle.figures.specs.Request.{missed};
ghost use Rattle.engine.specs.Shown.{Makes, Tells};
ghost use Rattle.engine.specs.Passes.{goes_on, oldest_of, Passing, Looked, Passed, EvictedWithCounts, Demotes, Places};
ghost use Rattle.entries.specs.Holds.{Holds};
ghost use Rattle.entries.specs.Stretches.{Room, name_of};
ghost use Rattle.entries.specs.Flags.{Says};
ghost use Rattle.entries.specs.Returning.{Full, Freed};
ghost use Rattle.cart.specs.Passing.{lengthens, HeadFlags, SecondTest, HeadDemoted, Raisable, CountsFit};

use engine::counts;
use engine::kinds::Kind;
use entries::{flags, header, lists, returning, search, targets};

// The flags of the head of list i, and where it is empty those of a head at which both passes stop, so that each pass has
// one test and no Option.
fn head_flags(dir: &[u32], i: usize) -> u32
    requires room { Room dir.now }
    requires clock { i ≤ 1 }
    ensures { HeadFlags i result dir.now }
{
    if dir[header::T1_LENGTH + i] == 0 {
        return flags::NEW_SHORT;
    }
    let at = lists::start_of(dir, i) + 1;
    dir[at]
}

// "Raise q", lines 20 and 25.
fn raise(dir: &mut [u32], short: counts::ShortCount)
    requires room { Room dir.old }
    requires raisable { Raisable dir.old short.0 }
    ensures { Makes Holds (Cart.raise short.0) dir.old dir.new }
{
    let c = dir[header::SIZE];
    let n1 = dir[header::T1_LENGTH];
    let n2 = dir[header::T2_LENGTH];
    let k2 = dir[header::B2_LENGTH];
    let short = short.0;
    if c <= n2 + k2 + n1 - short {
        dir[header::Q] = (dir[header::Q] + 1).min(2 * c - n1);
    }
}

// Line 33: T1 has lost a page to T2.
fn lower(dir: &mut [u32])
    requires { (8 ≤ length dir.old) × (n_t1 dir.old ≤ get_or dir.old 1 0) }
    ensures { Makes Holds Cart.lower dir.old dir.new }
{
    let least = dir[header::SIZE] - dir[header::T1_LENGTH];
    dir[header::Q] = dir[header::Q].saturating_sub(1).max(least);
}

// Lines 23 to 26, the first pass.
fn first_pass(dir: &mut [u32], kept: counts::Kept) -> counts::Kept
    requires room { Room dir.old }
    requires passing { Passing Holds dir.old kept }
    ensures { Passed Holds Cart.first_look dir.old kept dir.new result }
{
    let mut now = kept;
    let mut f = head_flags(dir, lists::T2);
    while flags::bit(f) {
        lists::t2_head_to_t1(dir);
        raise(dir, now.short);
        now.hand = now.hand.turned();
        f = head_flags(dir, lists::T2);
    }
    now
}

// Line 30's test, of T1's head, whose flags are f: it is S and T1 is long enough.
fn becomes_long(dir: &[u32], f: u32) -> bool
    requires { (8 ≤ length dir.now) × (get_or dir.now 2 0 ≤ unit * 1024)
        × (n_t1 dir.now ≤ 2048) × (n_b1 dir.now ≤ 2048) }
    ensures { (d : Directory) (e : Entry) → Holds d dir.now → f ≡ flags e → result ≡ lengthens e d }
{
    if flags::long(f) {
        return false;
    }
    let p = dir[header::P] + entries::UNIT;
    p.min(entries::UNIT * dir[header::B1_LENGTH]) <= entries::UNIT * dir[header::T1_LENGTH]
}

// Lines 28 to 33: T1's head, whose flags are f and which is L or has its bit set.
fn turn(dir: &mut [u32], f: u32, kept: counts::Kept) -> counts::Kept
    requires room { Room dir.old }
    requires passing { Passing Holds dir.old kept }
    requires head_flags { HeadFlags 0 f dir.old × SecondTest true dir.old }
    ensures { Looked Holds Cart.second_look dir.old kept dir.new result }
{
    let plain = flags::cleared(f);
    if flags::bit(f) {
        let hand = kept.hand.turned();
        if becomes_long(dir, f) {
            lists::move_head(dir, lists::T1, lists::T1, flags::made_long(plain));
            return counts::Kept {
                short: counts::ShortCount(kept.short.0 - 1),
                long: counts::LongCount(kept.long.0 + 1),
                hand,
            };
        }
        lists::move_head(dir, lists::T1, lists::T1, plain);
        return counts::Kept { hand, ..kept };
    }
    lists::move_head(dir, lists::T1, lists::T2, plain);
    lower(dir);
    let hand = kept.hand.moved();
    counts::Kept { hand, ..kept }
}

// Line 27's test, of a head's flags.
fn goes_on(f: u32) -> bool
    ensures { Says goes_on f result }
{
    flags::bit(f) || flags::long(f)
}

// Lines 27 to 35, the second pass.
fn second_pass(dir: &mut [u32], kept: counts::Kept) -> counts::Kept
    requires room { Room dir.old }
    requires passing { Passing Holds dir.old kept }
    ensures { Passed Holds Cart.second_look dir.old kept dir.new result
        × SecondTest false dir.new }
{
    let mut now = kept;
    let mut f = head_flags(dir, lists::T1);
    while goes_on(f) {
        now = turn(dir, f, now);
        f = head_flags(dir, lists::T1);
    }
    now
}

// The head of list i, T1 or T2, is demoted to its history; its page.
fn demote_head(dir: &mut [u32], i: usize) -> u32
    requires room { Room dir.old }
    requires clock_has_head { (i ≤ 1) × (1 ≤ get_or dir.old (4 + i) 0) }
    ensures { HeadDemoted i result dir.old dir.new }
{
    let at = lists::start_of(dir, i);
    let page = dir[at];
    let f = flags::demoted(dir[at + 1]);
    lists::move_head(dir, i, i + 2, f);
    page
}

// Lines 36 to 40, the demotion.
fn demote(dir: &mut [u32], kept: counts::Kept) -> counts::AfterEvict
    requires room { Room dir.old }
    requires passing { Passing Holds dir.old kept }
    requires second_test { SecondTest false dir.old }
    ensures { Demotes Holds dir.old kept dir.new result }
{
    let hand = kept.hand.moved();
    if targets::t1_at_target(dir) {
        let page = demote_head(dir, lists::T1);
        let list = 1;
        counts::AfterEvict {
            out: engine::Evicted { page, list, hand },
            short: counts::ShortCount(kept.short.0 - 1),
            long: kept.long,
        }
    } else {
        let page = demote_head(dir, lists::T2);
        let list = 2;
        counts::AfterEvict {
            out: engine::Evicted { page, list, hand },
            short: kept.short,
            long: counts::LongCount(kept.long.0 - 1),
        }
    }
}

// Lines 23 to 40.
pub fn evict(dir: &mut [u32]) -> counts::AfterEvict
    requires { Full cart dir.old }
    ensures { EvictedWithCounts Holds (Cart.evict (decode dir.old)) result dir.new }
{
    let n = dir[header::T1_LENGTH] + dir[header::T2_LENGTH];
    let longs = search::count(dir, header::ENTRIES, n as usize, flags::LONG);
    let kept = counts::Kept {
        short: counts::ShortCount(n - longs),
        long: counts::LongCount(longs),
        hand: engine::Hand::default(),
    };
    let kept = first_pass(dir, kept);
    let kept = second_pass(dir, kept);
    demote(dir, kept)
}

// The history that trim takes from.
fn oldest(q: u32, k1: u32, k2: u32) -> usize
    ensures { (name_of result ≡ oldest_of q k1 k2) × (2 ≤ result) × (result ≤ 3) }
{
    if q < k1 || k2 == 0 {
        lists::B1
    } else {
        lists::B2
    }
}

// Lines 6 to 10, for a page in neither history.
fn trim(dir: &mut [u32])
    requires { Freed dir.old }
    ensures { Makes Holds Cart.trim dir.old dir.new }
{
    let c = dir[header::SIZE];
    let k1 = dir[header::B1_LENGTH];
    let k2 = dir[header::B2_LENGTH];
    if k1 + k2 == c + 1 {
        let b = oldest(dir[header::Q], k1, k2);
        lists::drop_head(dir, b);
    }
}

// Lines 6 to 20: the page from B1, from B2, or new; the answer's kind.
fn place(dir: &mut [u32], page: u32, short: counts::ShortCount, long: counts::LongCount) -> Kind
    requires freed { Freed dir.old }
    requires counts_fit { CountsFit dir.old short long }
    ensures { Places Holds page short long dir.old result dir.new }
{
    let to = returning::Return {
        b1: short.0,
        b2: long.0,
        tail: lists::T1,
        flags: flags::NEW_LONG,
    };
    let kind = returning::come_back(dir, page, to);
    match kind {
        Kind::FromB2 => raise(dir, short),
        Kind::New => {
            trim(dir);
            lists::place_new(dir, page);
        }
        _ => {}
    }
    kind
}

// A miss in a full cache.
pub fn miss(dir: &mut [u32], page: u32) -> engine::Served
    requires { Full cart dir.old }
    ensures { Tells Holds (missed cart_policy page (Cart.evict (decode dir.old)))
        result dir.new }
{
    let e = evict(dir);
    let kind = place(dir, page, e.short, e.long);
    engine::answer_of(kind, e.out)
}
