// The header of a directory's words, by name, and the word at which the entries start.
// The lists' lengths stand in the order of the lists, so that list i has its length at T1_LENGTH + i.
pub const POLICY: usize = 0;

pub const SIZE: usize = 1;

pub const P: usize = 2;

pub const Q: usize = 3;

pub const T1_LENGTH: usize = 4;

pub const T2_LENGTH: usize = 5;

pub const B1_LENGTH: usize = 6;

pub const B2_LENGTH: usize = 7;

pub const ENTRIES: usize = 8;
