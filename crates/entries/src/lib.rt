// The lists of a directory in lent words: leaves that the rules of every policy are made of.
// Nothing is copied out: a move turns one stretch of words in place and holds one entry.
#![tactic(auto)]

pub mod flags;
pub mod header;
pub mod lists;
pub mod returning;
pub mod search;
pub mod stretch;
pub mod targets;

// The target p counts in parts of a page, of which a page has so many.
pub const UNIT: u32 = 1;
