// A stretch of words turned by one entry, and an entry put in: two words each.
// What stands before and after the stretch stays.
//
// Two loops and no copy_within or rotate_left: LLVM makes one memmove of each loop, and the library's took 1.23 times
// as long in a run, and 2.8 times for 4,096 words (docs/MEASURED.md). a and e and their clause stay: docs/CONTRACTS.md,
// "Moving an entry", names these functions, so they may ask no more.
ghost use Rattle.std.specs.Prelude.{◌≡◌, ◌+◌, ◌≤◌, ◌∷◌, ◌++◌, length, take, drop};
ghost use Rattle.entries.specs.Leaves.{ToEnd, PutIn, TakenOut};

// Turns s by one entry: the first becomes the last. One word or none stays.
fn turn(s: &mut [u32])
    ensures { s.new ≡ drop 2 s.old ++ take 2 s.old }
{
    let n = s.len();
    if n < 2 {
        return;
    }
    let a = s[0];
    let b = s[1];
    let m = n - 2;
    for i in 0..m {
        s[i] = s[i + 2];
    }
    s[m] = a;
    s[m + 1] = b;
}

// Makes the entry at word a the last before word e, with new flags.
pub fn to_end(dir: &mut [u32], a: usize, e: usize, flags: u32)
    requires { (a + 2 ≤ e) × (e ≤ length dir.old) }
    ensures { ToEnd a e flags dir.old dir.new }
{
    dir[a + 1] = flags;
    turn(&mut dir[a..e]);
}

// Puts an entry in front of the words of s, the last two of which fall out: one shift from the end.
fn shift_in(s: &mut [u32], page: u32, flags: u32)
    requires { 2 ≤ length s.old }
    ensures { s.new ≡ take (length s.old) (page ∷ flags ∷ s.old) }
{
    for i in (2..s.len()).rev() {
        s[i] = s[i - 2];
    }
    s[1] = flags;
    s[0] = page;
}

// Puts an entry in at word a; the last entry before word e falls out.
pub fn put_in(dir: &mut [u32], a: usize, e: usize, page: u32, flags: u32)
    requires { (a + 2 ≤ e) × (e ≤ length dir.old) }
    ensures { PutIn a e page flags dir.old dir.new }
{
    shift_in(&mut dir[a..e], page, flags);
}

// Takes the entry at word a out of the words before e, and leaves two zeros at their end.
pub fn take_out(dir: &mut [u32], a: usize, e: usize)
    requires { (a + 2 ≤ e) × (e ≤ length dir.old) }
    ensures { TakenOut a e dir.old dir.new }
{
    dir[a] = 0;
    to_end(dir, a, e, 0);
}
