// The lengths that the words of a directory state, which may be any numbers until soundness is known.
// They are read once; their sums cannot overflow, since each is a word.
ghost use Rattle.std.specs.Prelude.{◌≡◌, ◌+◌, ◌≤◌, ◌<◌, ◌^◌, length};
ghost use Rattle.figures.specs.Words.{n_t1, n_t2, n_b1, n_b2};

use entries::header;

#[derive(Clone, Copy)]
pub struct Lengths {
    pub t1: usize,
    pub t2: usize,
    pub b1: usize,
    pub b2: usize,
    ghost words: { (t1 < 2 ^ 32) × (t2 < 2 ^ 32) × (b1 < 2 ^ 32) × (b2 < 2 ^ 32) },
}

impl Lengths {
    pub fn of(dir: &[u32]) -> Lengths
        requires { 8 ≤ length dir.now }
        ensures t1 { result.t1 ≡ n_t1 dir.now }
        ensures t2 { result.t2 ≡ n_t2 dir.now }
        ensures b1 { result.b1 ≡ n_b1 dir.now }
        ensures b2 { result.b2 ≡ n_b2 dir.now }
    {
        Lengths {
            t1: dir[header::T1_LENGTH] as usize,
            t2: dir[header::T2_LENGTH] as usize,
            b1: dir[header::B1_LENGTH] as usize,
            b2: dir[header::B2_LENGTH] as usize,
        }
    }

    pub fn cached(self) -> usize
        ensures { result ≡ self.t1 + self.t2 }
    {
        self.t1 + self.t2
    }

    pub fn remembered(self) -> usize
        ensures { result ≡ self.b1 + self.b2 }
    {
        self.b1 + self.b2
    }

    pub fn all(self) -> usize
        ensures { result ≡ self.t1 + self.t2 + (self.b1 + self.b2) }
    {
        self.cached() + self.remembered()
    }
}
