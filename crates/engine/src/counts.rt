// What CART's evict part keeps beside the lent memory: n_S and n_L as Figure 3 keeps them, and the hand's counts.
// Each count is a type of its own, so that neither fits where the other belongs, as document 01 asks; so they stand side
// by side in two structs and are no pair.

// n_S, the S pages of T1 and T2.
#[derive(Clone, Copy)]
pub struct ShortCount(pub u32);

// n_L, the L pages of T1 and T2.
#[derive(Clone, Copy)]
pub struct LongCount(pub u32);

#[derive(Clone, Copy)]
pub struct Kept {
    pub short: ShortCount,
    pub long: LongCount,
    pub hand: crate::Hand,
}

// What the evict part leaves: the evicted page, and n_S and n_L then.
#[derive(Clone, Copy)]
pub struct AfterEvict {
    pub out: crate::Evicted,
    pub short: ShortCount,
    pub long: LongCount,
}
