// What every engine answers: what the hand has counted, the evicted page, a request's answer.
// What lent memory shows of a directory, whatever an engine keeps it in, is a parameter of specs/Shown.
#![tactic(auto)]

ghost use Rattle.std.specs.Prelude.{◌≡◌, ◌+◌, ◌<◌, ◌^◌};
ghost use Rattle.engine.specs.Shown.{moved_once, turned_once, served_of};

pub mod counts;
pub mod kinds;

use kinds::Kind;

// Hand moves so far, and the reference bits that they cleared.
#[derive(Clone, Copy, Default)]
pub struct Hand {
    pub moves: u32,
    pub cleared: u32,
}

impl Hand {
    // One move more, which cleared no bit.
    pub fn moved(self) -> Hand
        requires { self.moves + 1 < 2 ^ 32 }
        ensures { result ≡ moved_once self }
    {
        Hand {
            moves: self.moves + 1,
            cleared: self.cleared,
        }
    }

    // One move more, which cleared a bit.
    pub fn turned(self) -> Hand
        requires { (self.moves + 1 < 2 ^ 32) × (self.cleared + 1 < 2 ^ 32) }
        ensures { result ≡ turned_once self }
    {
        Hand {
            moves: self.moves + 1,
            cleared: self.cleared + 1,
        }
    }
}

// The evicted page, the list that it came from, and the hand then.
#[derive(Clone, Copy)]
pub struct Evicted {
    pub page: u32,
    pub list: u32,
    pub hand: Hand,
}

// What a request answers: its kind, and document 01's other three words, which are zeros where nothing was evicted (list
// 1 is T1, 2 is T2); and the reference bits that the hand cleared. The kind, a byte, stands last: with it in front a run
// waits for the words behind it (docs/LOOK-BACK.md).
#[derive(Clone, Copy)]
pub struct Served {
    pub page: u32,
    pub list: u32,
    pub moves: u32,
    pub cleared: u32,
    pub kind: Kind,
}

// The answer of a miss after the evict part.
pub fn answer_of(kind: Kind, out: Evicted) -> Served
    ensures { result ≡ served_of kind out }
{
    Served {
        kind,
        page: out.page,
        list: out.list,
        moves: out.hand.moves,
        cleared: out.hand.cleared,
    }
}
