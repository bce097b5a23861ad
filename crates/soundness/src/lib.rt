// "A directory is sound when", in words whose number, policy and size are in order, which directory::check sees to.
// Sizes come first: what is read after them is where it should be.
#![tactic(auto)]

ghost use Rattle.std.specs.Prelude.{◌≡◌, get_or};
ghost use Rattle.figures.specs.Car.{car_sound};
ghost use Rattle.figures.specs.Cart.{cart_sound};
ghost use Rattle.figures.specs.Classics.{alone_sound, clear_sound};
ghost use Rattle.figures.specs.Policy.{policy_of};
ghost use Rattle.figures.specs.Sound.{sound};
ghost use Rattle.soundness.specs.Orderly.{Orderly, sizes_fit, WordsHeld, entries_sound};

mod lengths;

use entries::{flags, header, search};
use lengths::Lengths;
use terms::policies::Policy;

// p and the four lengths, which may be any numbers.
fn sizes_fit(dir: &[u32]) -> bool
    requires { Orderly dir.now }
    ensures { result ≡ sizes_fit dir.now }
{
    let n = Lengths::of(dir);
    let c = dir[header::SIZE] as usize;
    dir[header::P] <= entries::UNIT * dir[header::SIZE]
        && n.cached() <= c
        && n.remembered() <= c
        && (n.cached() == c || n.remembered() == 0)
}

// Words whose lists are where their lengths say: what the rules are asked of.
#[derive(Clone, Copy)]
struct Held<'a> {
    dir: &'a [u32],
    ghost held: { WordsHeld dir.now },
}

impl<'a> Held<'a> {
    // CAR's own rules.
    fn car_sound(self) -> bool
        ensures { result ≡ car_sound self.entry.dir.now }
    {
        let dir = self.dir;
        let n = Lengths::of(dir);
        dir[header::Q] == 0
            && search::count(dir, header::ENTRIES, n.all(), flags::LONG) == 0
            && n.t1 + n.b1 <= dir[header::SIZE] as usize
    }

    // CART's own rules.
    fn cart_sound(self) -> bool
        ensures { result ≡ cart_sound self.entry.dir.now }
    {
        let dir = self.dir;
        let n = Lengths::of(dir);
        let t2 = header::ENTRIES + 2 * n.t1;
        let b1 = header::ENTRIES + 2 * n.cached();
        let b2 = b1 + 2 * n.b1;
        dir[header::Q] <= 2 * dir[header::SIZE]
            && search::count(dir, t2, n.t2, flags::LONG) == dir[header::T2_LENGTH]
            && search::count(dir, b2, n.b2, flags::LONG) == dir[header::B2_LENGTH]
            && search::count(dir, b1, n.b1, flags::LONG) == 0
    }

    // What FIFO, CLOCK and LRU share: T1 alone.
    fn alone_sound(self) -> bool
        ensures { result ≡ alone_sound self.entry.dir.now }
    {
        let dir = self.dir;
        let n = Lengths::of(dir);
        dir[header::P] == 0
            && dir[header::Q] == 0
            && n.t2 + n.remembered() == 0
            && search::count(dir, header::ENTRIES, n.t1, flags::LONG) == 0
    }

    // FIFO's and LRU's own rules: the same, and no bit is set.
    fn clear_sound(self) -> bool
        ensures { result ≡ clear_sound self.entry.dir.now }
    {
        let dir = self.dir;
        let n = Lengths::of(dir);
        self.alone_sound() && search::count(dir, header::ENTRIES, n.t1, flags::BIT) == 0
    }

    // The own rules of the policy that the directory names: a match, since the rules are this crate's alone.
    fn own_sound(self) -> bool
        ensures { result ≡ (policy_of (get_or self.entry.dir.now 0 0)).own_sound self.entry.dir.now }
    {
        match Policy::try_from(self.dir[header::POLICY]) {
            Ok(Policy::Car) => self.car_sound(),
            Ok(Policy::Cart) => self.cart_sound(),
            Ok(Policy::Clock) => self.alone_sound(),
            Ok(Policy::Fifo | Policy::Lru) => self.clear_sound(),
            // Never: the number is a policy's (Orderly).
            Err(_) => false,
        }
    }

    // What the entries say, once flags are known to be flags.
    fn entries_sound(self) -> bool
        ensures { result ≡ entries_sound self.entry.dir.now }
    {
        let dir = self.dir;
        let n = Lengths::of(dir);
        let b1 = header::ENTRIES + 2 * n.cached();
        differing::pages_differ(dir, n.all())
            && search::count(dir, b1, n.remembered(), flags::BIT) == 0
            && self.own_sound()
    }
}

// All of it.
pub fn is_sound(dir: &[u32]) -> bool
    requires { Orderly dir.now }
    ensures { result ≡ sound dir.now }
{
    let n = Lengths::of(dir);
    sizes_fit(dir)
        && search::flags_known(dir, n.all())
        && search::all_zero(dir, header::ENTRIES + 2 * n.all())
        && Held { dir }.entries_sound()
}
