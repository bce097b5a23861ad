// The policies, their numbers and names, and which numbers are a policy's.
// Both are those of specs/Policies.
ghost use Rattle.std.specs.Prelude.{◌≡◌, codes};
ghost use Rattle.terms.specs.Policies.{number_of, policy_name, ReadAsPolicy};

use crate::refusals::Refusal;

#[derive(Clone, Copy, Debug, PartialEq, Eq)]
pub enum Policy {
    Car = 1,
    Cart = 2,
    Fifo = 3,
    Clock = 4,
    Lru = 5,
}

impl Policy {
    pub fn name(self) -> &'static [u8]
        ensures { result.now ≡ codes (policy_name (number_of self)) }
    {
        match self {
            Policy::Car => b"car",
            Policy::Cart => b"cart",
            Policy::Fifo => b"fifo",
            Policy::Clock => b"clock",
            Policy::Lru => b"lru",
        }
    }
}

impl From<Policy> for u32 {
    ghost from_gives = { λ policy number. number ≡ number_of policy };

    fn from(policy: Policy) -> u32 {
        policy as u32
    }
}

impl TryFrom<u32> for Policy {
    type Error = Refusal;

    ghost try_from_gives = { ReadAsPolicy };

    fn try_from(number: u32) -> Result<Policy, Refusal> {
        match number {
            1 => Ok(Policy::Car),
            2 => Ok(Policy::Cart),
            3 => Ok(Policy::Fifo),
            4 => Ok(Policy::Clock),
            5 => Ok(Policy::Lru),
            _ => Err(Refusal::PolicyNotKnown),
        }
    }
}
