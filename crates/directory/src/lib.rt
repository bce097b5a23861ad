// The public operations on a directory in lent words. Each is total: whatever is lent gets an answer or a refusal, and
// a refused call changes no lent word. What each promises is in specs/Promises.
#![tactic(auto)]

ghost use Rattle.std.specs.Prelude.{◌≡◌, ◌+◌, ◌*◌, ◌≤◌, ◌<◌, ◌∷◌, ◌++◌, length, get_or, take, drop};
ghost use Rattle.terms.specs.Policies.{number_of};
ghost use Rattle.figures.specs.Words.{decode, size, n_t1, n_t2};
ghost use Rattle.figures.specs.Request.{request};
ghost use Rattle.engine.specs.Shown.{Tells, number_of as kind_number};
ghost use Rattle.entries.specs.Holds.{Holds};
ghost use Rattle.tally.specs.Note.{Small};
ghost use Rattle.directory.specs.Promises.{Freshened, Checked, Requested, Replayed};
ghost use Rattle.directory.specs.Ready.{still_of, HitAs, evicting, Ready, Stepped, RunThrough};

use engine::Served;
use engine::kinds::Kind;
use entries::{header, lists, search};
use tally::Tally;
use terms::limits;
use terms::policies::Policy;
use terms::refusals::Refusal;

// A request's answer.
#[derive(Clone, Copy)]
pub struct Answer {
    pub kind: Kind,
    pub page: u32,
    pub list: u32,
    pub moves: u32,
}

// A fresh directory: refusals 1, 2, 3. The policy stays a number: any number is answered.
#[tactic(auto, using(crate::proofs::Refused::freshens))]
pub fn fresh(policy: u32, c: u32, dir: &mut [u32]) -> Result<(), Refusal>
    ensures { Freshened policy c dir.old result dir.new }
{
    Policy::try_from(policy)?;
    if !limits::known_size(c) {
        return Err(Refusal::SizeNotKnown);
    }
    if dir.len() != header::ENTRIES + 4 * c as usize {
        return Err(Refusal::WrongLength);
    }
    dir.fill(0);
    dir[header::POLICY] = policy;
    dir[header::SIZE] = c;
    Ok(())
}

// The soundness check: under 8 words 3, then 1, 2, length 3, then 4.
#[tactic(auto, using(crate::proofs::Refused::checks))]
pub fn check(dir: &[u32]) -> Result<(), Refusal>
    ensures { Checked dir.now result }
{
    if dir.len() < header::ENTRIES {
        return Err(Refusal::WrongLength);
    }
    Policy::try_from(dir[header::POLICY])?;
    if !limits::known_size(dir[header::SIZE]) {
        return Err(Refusal::SizeNotKnown);
    }
    if dir.len() != header::ENTRIES + 4 * dir[header::SIZE] as usize {
        return Err(Refusal::WrongLength);
    }
    if !soundness::is_sound(dir) {
        return Err(Refusal::NotSound);
    }
    Ok(())
}

// "For kinds 0 and 1 the other three are 0."
fn still(kind: Kind) -> Served
    ensures { result ≡ still_of kind }
{
    Served {
        kind,
        page: 0,
        list: 0,
        moves: 0,
        cleared: 0,
    }
}

// The policy that a sound directory names. Ready stays a clause: the kit has no ghost field beside a `&mut`
// (NOT_COVERED.md), and that hit and miss leave the words sound is shown by serve alone.
fn policy_of(dir: &[u32]) -> Policy
    requires { Ready dir.now }
    ensures { number_of result ≡ get_or dir.now 0 0 }
{
    Policy::try_from(dir[header::POLICY]).unwrap()
}

// A hit on entry k of T1 and T2, by the policy that the directory names: FIFO ignores it, LRU moves the page to T1's
// tail, all others set its bit. A match, here and in miss: a trait of policies would say in five impls what two lines say.
fn hit(dir: &mut [u32], k: usize)
    requires ready { Ready dir.old }
    requires in_cache { k < n_t1 dir.old + n_t2 dir.old }
    ensures { HitAs k dir.old dir.new }
{
    match policy_of(dir) {
        Policy::Fifo => {}
        Policy::Lru => classics::renew(dir, k),
        Policy::Car | Policy::Cart | Policy::Clock => lists::mark(dir, k),
    }
}

// A miss in a full cache, by the policy that the directory names.
fn miss(dir: &mut [u32], page: u32) -> Served
    requires ready { Ready dir.old }
    requires full { n_t1 dir.old + n_t2 dir.old ≡ size dir.old }
    ensures { Tells Holds (evicting page (decode dir.old)) result dir.new }
{
    match policy_of(dir) {
        Policy::Car => car::miss(dir, page),
        Policy::Cart => cart::miss(dir, page),
        Policy::Fifo | Policy::Clock | Policy::Lru => classics::miss(dir, page),
    }
}

// One request of a sound directory, which it leaves sound: the step under requests and runs.
fn serve(dir: &mut [u32], page: u32) -> Served
    requires { Ready dir.old }
    ensures { Tells Holds (request page (decode dir.old)) result dir.new
        × Ready dir.new }
{
    let cached = dir[header::T1_LENGTH] + dir[header::T2_LENGTH];
    if let Some(at) = search::find(dir, header::ENTRIES, cached as usize, page) {
        hit(dir, at);
        return still(Kind::Hit);
    }
    if cached < dir[header::SIZE] {
        lists::place_new(dir, page);
        return still(Kind::WithRoom);
    }
    miss(dir, page)
}

// One request: refusals as the soundness check.
#[tactic(auto, using(crate::proofs::Requesting::requests))]
pub fn request(dir: &mut [u32], page: u32) -> Result<Answer, Refusal>
    ensures { Requested dir.old page result dir.new }
{
    check(dir)?;
    let served = serve(dir, page);
    Ok(Answer {
        kind: served.kind,
        page: served.page,
        list: served.list,
        moves: served.moves,
    })
}

// An answer's four words, written from word at on.
#[tactic(auto, using(crate::proofs::Replaying::four_stores))]
fn put_answer(answers: &mut [u32], at: usize, served: Served)
    requires { at + 4 ≤ length answers.old }
    ensures { answers.new ≡ take at answers.old
        ++ (kind_number served.kind ∷ served.page ∷ served.list ∷ served.moves ∷ drop (at + 4) answers.old) }
{
    answers[at] = u32::from(served.kind);
    answers[at + 1] = served.page;
    answers[at + 2] = served.list;
    answers[at + 3] = served.moves;
}

// One request of a run: served, answered from word at on, and counted.
fn step(dir: &mut [u32], page: u32, answers: &mut [u32], at: usize, t: Tally) -> Tally
    requires ready { Ready dir.old }
    requires answer_fits { (at + 4 ≤ length answers.old) × Small t }
    ensures { Stepped page dir.old answers.old at t
        result dir.new answers.new }
{
    let served = serve(dir, page);
    put_answer(answers, at, served);
    tally::counted(t, u32::from(served.kind), served.moves)
}

// The requests of a trace in order, from a sound directory.
// The answers are written by index: what is written through chunks_exact_mut, no proof knows afterwards.
fn replay(dir: &mut [u32], trace: &[u32], answers: &mut [u32]) -> Tally
    requires ready { Ready dir.old }
    requires answers_fit { (length trace.now ≤ 1000) × (4 * length trace.now ≤ length answers.old) }
    ensures { RunThrough dir.old trace.now answers.old
        result dir.new answers.new }
{
    let mut t = Tally::default();
    for (i, &page) in trace.iter().enumerate() {
        t = step(dir, page, answers, 4 * i, t);
    }
    t
}

// A run: refusals as a request, then 5, 6.
#[tactic(auto, using(crate::proofs::Running::runs))]
pub fn run(dir: &mut [u32], trace: &[u32], answers: &mut [u32]) -> Result<Tally, Refusal>
    ensures { Replayed dir.old trace.now answers.old
        result dir.new answers.new }
{
    check(dir)?;
    if limits::MOST_PAGES < trace.len() {
        return Err(Refusal::TooManyPages);
    }
    if answers.len() < 4 * trace.len() {
        return Err(Refusal::BufferTooShort);
    }
    Ok(replay(dir, trace, answers))
}
