// FIFO, CLOCK and LRU in lent words: T1 alone, a queue whose head is evicted and forgotten.
// One evict part serves the three, CLOCK's: where no bit is set, as under FIFO and LRU, it forgets the head at once.
// FullQueue stays a clause: the kit has no ghost field beside a `&mut` (NOT_COVERED.md), and evict ends it.
#![tactic(auto)]

ghost use Rattle.std.specs.Prelude.{◌<◌};
ghost use Rattle.figures.specs.Words.{decode, n_t1};
ghost use Rattle.figures.specs.Classics.{clock_evict};
ghost use Rattle.figures.specs.Policy.{clock_policy};
ghost use Rattle.figures.specs.Request.{missed};
ghost use Rattle.engine.specs.Shown.{EvictedAs, Tells};
ghost use Rattle.entries.specs.Holds.{Holds};
ghost use Rattle.entries.specs.Stretches.{Room};
ghost use Rattle.classics.specs.Queues.{FullQueue, Renewed, Passed};

use engine::kinds::Kind;
use entries::{flags, header, lists, stretch};

// LRU's hit: entry k of T1 becomes its tail, as it is.
pub fn renew(dir: &mut [u32], k: usize)
    requires room { Room dir.old }
    requires in_t1 { k < n_t1 dir.old }
    ensures { Renewed k dir.old dir.new }
{
    let at = header::ENTRIES + 2 * k;
    let end = lists::start_of(dir, lists::T2);
    let f = dir[at + 1];
    stretch::to_end(dir, at, end, f);
}

// CLOCK's hand: heads with bit 1 go to the tail, bit 0. What it has counted then.
fn pass(dir: &mut [u32]) -> engine::Hand
    requires { FullQueue dir.old }
    ensures { Passed dir.old result dir.new }
{
    let mut hand = engine::Hand::default();
    while flags::bit(dir[header::ENTRIES + 1]) {
        let f = flags::cleared(dir[header::ENTRIES + 1]);
        lists::move_head(dir, lists::T1, lists::T1, f);
        hand = hand.turned();
    }
    hand
}

// The head whose bit is clear is evicted and forgotten.
fn evict(dir: &mut [u32]) -> engine::Evicted
    requires { FullQueue dir.old }
    ensures { EvictedAs Holds (clock_evict (decode dir.old)) result dir.new }
{
    let hand = pass(dir).moved();
    let page = dir[header::ENTRIES];
    lists::drop_head(dir, lists::T1);
    let list = 1;
    engine::Evicted { page, list, hand }
}

// A miss in a full cache: the page is new, since none is remembered.
pub fn miss(dir: &mut [u32], page: u32) -> engine::Served
    requires { FullQueue dir.old }
    ensures { Tells Holds (missed clock_policy page (clock_evict (decode dir.old))) result
        dir.new }
{
    let out = evict(dir);
    lists::place_new(dir, page);
    engine::answer_of(Kind::New, out)
}
