// CAR, Figure 2, in lent words: evict by choosing a clock and looking at its head, then trim and place.
// The choice leads to a look, and a look at a set bit back to the choice, so many times at most; the set bits fall.
// Room, Turning and Freed stay clauses: the kit has no ghost field beside a `&mut` (NOT_COVERED.md).
#![tactic(auto)]

ghost use Rattle.std.specs.Prelude.{◌+◌, ◌≤◌};
ghost use Rattle.terms.specs.Policies.{car};
ghost use Rattle.figures.specs.Words.{decode, size, n_t1, n_b1};
ghost use Rattle.figures.specs.Hand.{Hand};
ghost use Rattle.figures.specs.Car as Car;
ghost use Rattle.figures.specs.Policy.{car_policy};
ghost use Rattle.figures.specs.Request.{missed};
ghost use Rattle.engine.specs.Shown.{Makes, EvictedAs, PlacedAs, Tells};
ghost use Rattle.engine.specs.Choosing.{Turning, Chosen};
ghost use Rattle.entries.specs.Holds.{Holds};
ghost use Rattle.entries.specs.Stretches.{Room, name_of};
ghost use Rattle.entries.specs.Returning.{Full, Freed};
ghost use Rattle.car.specs.Looking.{LooksFrom};

use engine::kinds::Kind;
use entries::{flags, header, lists, returning, targets};
use std::ops::ControlFlow;

// So many looks stand on the stack at most: after them the choice hands back, and evict asks it again.
const LOOKS: u32 = 8;

// Line 24, the choice of a clock, with so many looks left: the page that was evicted, or none yet and the hand so far.
// Choice and look call each other: document 01's form.
#[cycle(choose_look)]
fn choose(
    dir: &mut [u32],
    hand: engine::Hand,
    left: u32,
) -> ControlFlow<engine::Evicted, engine::Hand>
    requires room { Room dir.old }
    requires turning { Turning Holds dir.old hand }
    ensures { LooksFrom left dir.old hand result dir.new }
{
    if left == 0 {
        return ControlFlow::Continue(hand);
    }
    if targets::t1_at_target(dir) {
        look(dir, lists::T1, hand, left)
    } else {
        look(dir, lists::T2, hand, left)
    }
}

// Lines 25 to 30 and 32 to 37, the look at the head of clock i, the first of so many that are left.
#[cycle(choose_look)]
fn look(
    dir: &mut [u32],
    i: usize,
    hand: engine::Hand,
    left: u32,
) -> ControlFlow<engine::Evicted, engine::Hand>
    requires room { Room dir.old }
    requires turning { Turning Holds dir.old hand }
    requires i_chosen { (i ≤ 1) × Chosen Holds (name_of i) dir.old }
    requires some_left { 1 ≤ left }
    ensures { LooksFrom left dir.old hand result dir.new }
{
    let at = lists::start_of(dir, i);
    let page = dir[at];
    let f = dir[at + 1];
    if flags::bit(f) {
        lists::move_head(dir, i, lists::T2, flags::cleared(f));
        choose(dir, hand.turned(), left - 1)
    } else {
        lists::move_head(dir, i, i + 2, flags::demoted(f));
        let list = i as u32 + 1;
        let hand = hand.moved();
        ControlFlow::Break(engine::Evicted { page, list, hand })
    }
}

// Lines 22 to 39: the choice, until it has stopped.
pub fn evict(dir: &mut [u32]) -> engine::Evicted
    requires { Full car dir.old }
    ensures { EvictedAs Holds (Car.evict (decode dir.old)) result dir.new }
{
    let mut hand = engine::Hand::default();
    loop {
        match choose(dir, hand, LOOKS) {
            ControlFlow::Break(out) => return out,
            ControlFlow::Continue(so_far) => hand = so_far,
        }
    }
}

// Lines 6 to 10, for a page in neither history.
fn trim(dir: &mut [u32])
    requires freed { Freed dir.old }
    requires t1_b1_fit { n_t1 dir.old + n_b1 dir.old ≤ size dir.old }
    ensures { Makes Holds Car.trim dir.old dir.new }
{
    let c = dir[header::SIZE];
    let n1 = dir[header::T1_LENGTH];
    let n2 = dir[header::T2_LENGTH];
    let k1 = dir[header::B1_LENGTH];
    let k2 = dir[header::B2_LENGTH];
    if n1 + k1 == c {
        lists::drop_head(dir, lists::B1);
    } else if n1 + n2 + (k1 + k2) == 2 * c {
        lists::drop_head(dir, lists::B2);
    }
}

// Lines 6 to 20: the page from B1, from B2, or new; the answer's kind.
fn place(dir: &mut [u32], page: u32) -> Kind
    requires freed { Freed dir.old }
    requires t1_b1_fit { n_t1 dir.old + n_b1 dir.old ≤ size dir.old }
    ensures { (h : Hand) → Holds h.dir dir.old
        → PlacedAs Holds car_policy page h result dir.new }
{
    let to = returning::Return {
        b1: dir[header::B2_LENGTH],
        b2: dir[header::B1_LENGTH],
        tail: lists::T2,
        flags: flags::NEW_SHORT,
    };
    let kind = returning::come_back(dir, page, to);
    if kind == Kind::New {
        trim(dir);
        lists::place_new(dir, page);
    }
    kind
}

// A miss in a full cache.
pub fn miss(dir: &mut [u32], page: u32) -> engine::Served
    requires { Full car dir.old }
    ensures { Tells Holds (missed car_policy page (Car.evict (decode dir.old))) result dir.new }
{
    let out = evict(dir);
    let kind = place(dir, page);
    engine::answer_of(kind, out)
}
