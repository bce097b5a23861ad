// The directory's public operations for a program in C, such as a controller's firmware: c/replay.h declares them.
// A slice is a pointer and a length, an answer a struct by value, laid out as C has it. Nothing is decided here.
#![tactic(auto)]

ghost use Rattle.std.specs.Prelude.{◌≡◌};
ghost use Rattle.exports.specs.Promises.{answer_of, Requested, RunAs, Replayed, Freshened, Checked};

use tally::Tally;
use terms::refusals::{Refusal, number_in};

// A request's answer; zeros beside the number of a refusal.
#[repr(C)]
#[derive(Clone, Copy)]
pub struct Answer {
    pub number: u32,
    pub kind: u32,
    pub page: u32,
    pub list: u32,
    pub moves: u32,
}

// A run's answer; a tally of zeros beside the number of a refusal.
#[repr(C)]
#[derive(Clone, Copy)]
pub struct Ran {
    pub number: u32,
    pub tally: Tally,
}

impl From<Result<directory::Answer, Refusal>> for Answer {
    ghost from_gives = { λ answered answer. answer ≡ answer_of answered };

    fn from(answered: Result<directory::Answer, Refusal>) -> Answer {
        match answered {
            Ok(answer) => Answer {
                number: 0,
                kind: answer.kind.into(),
                page: answer.page,
                list: answer.list,
                moves: answer.moves,
            },
            Err(refusal) => Answer {
                number: refusal.into(),
                kind: 0,
                page: 0,
                list: 0,
                moves: 0,
            },
        }
    }
}

impl From<Result<Tally, Refusal>> for Ran {
    ghost from_gives = { RunAs };

    fn from(ran: Result<Tally, Refusal>) -> Ran {
        match ran {
            Ok(tally) => Ran { number: 0, tally },
            Err(refusal) => Ran {
                number: refusal.into(),
                tally: Tally::default(),
            },
        }
    }
}

#[unsafe(no_mangle)]
pub extern "C" fn replay_fresh(policy: u32, c: u32, dir: &mut [u32]) -> u32
    ensures { Freshened policy c dir.old result dir.new }
{
    number_in(directory::fresh(policy, c, dir))
}

#[unsafe(no_mangle)]
pub extern "C" fn replay_check(dir: &[u32]) -> u32
    ensures { Checked dir.now result }
{
    number_in(directory::check(dir))
}

#[unsafe(no_mangle)]
pub extern "C" fn replay_request(dir: &mut [u32], page: u32) -> Answer
    ensures { Requested dir.old page result dir.new }
{
    directory::request(dir, page).into()
}

#[unsafe(no_mangle)]
pub extern "C" fn replay_run(dir: &mut [u32], trace: &[u32], answers: &mut [u32]) -> Ran
    ensures { Replayed dir.old trace.now answers.old
        result dir.new answers.new }
{
    directory::run(dir, trace, answers).into()
}
