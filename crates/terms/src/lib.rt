// Words of the trade, below the cache and the sheets alike: limits, refusal numbers, the policies' numbers.
// What each means is in specs/, under the same name.
#![tactic(auto)]

pub mod limits;
pub mod policies;
pub mod refusals;
