// The running tally of a run: a by-value core, and a thin function that a tally is lent to.
// `counted` lends a tally of its own, so that a loop carries its tally by value. Document 01 names the form.
#![tactic(auto)]

ghost use Rattle.std.specs.Prelude.{◌≡◌, ◌≤◌};
ghost use Rattle.tally.specs.Note.{noted_of, Small};

use engine::kinds::Kind;

// Laid out as C has it: exports hands it to C.
#[repr(C)]
#[derive(Clone, Copy, Default)]
pub struct Tally {
    pub requests: u32,
    pub hits: u32,
    pub misses: u32,
    pub evictions: u32,
    pub moves: u32,
}

// The tally brought up to date by an answer's kind and moves. The kind stays a number: any number is counted.
fn noted(t: Tally, kind: u32, moves: u32) -> Tally
    requires { Small t × (moves ≤ 2049) }
    ensures { result ≡ noted_of t kind moves }
{
    let hit = u32::from(kind == u32::from(Kind::Hit));
    let evicted = u32::from(u32::from(Kind::New) <= kind);
    Tally {
        requests: t.requests + 1,
        hits: t.hits + hit,
        misses: t.misses + (1 - hit),
        evictions: t.evictions + evicted,
        moves: t.moves + moves,
    }
}

// The same of a tally that is lent.
fn note(t: &mut Tally, kind: u32, moves: u32)
    requires { Small t.old × (moves ≤ 2049) }
    ensures { t.new ≡ noted_of t.old kind moves }
{
    *t = noted(*t, kind, moves);
}

// The same by value, through the lent tally.
pub fn counted(t: Tally, kind: u32, moves: u32) -> Tally
    requires { Small t × (moves ≤ 2049) }
    ensures { result ≡ noted_of t kind moves }
{
    let mut own = t;
    note(&mut own, kind, moves);
    own
}
