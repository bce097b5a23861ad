// The target p: the choice that it decides, and what a page that comes back makes of it.
// Both figures have the same rules; their dividends are the policy's.
ghost use Rattle.std.specs.Prelude.{◌≡◌, ◌*◌, ◌≤◌, length, get_or};
ghost use Rattle.figures.specs.Directory.{Directory, unit, t1_at_target};
ghost use Rattle.figures.specs.Words.{size, n_t1, n_b1, n_b2};
ghost use Rattle.entries.specs.Holds.{Holds};
ghost use Rattle.entries.specs.Targets.{raised_target, lowered_target};

use crate::{UNIT, header};

// "|T1| ≥ max(1, p)", line 24 of Figure 2 and line 36 of Figure 3.
pub fn t1_at_target(dir: &[u32]) -> bool
    requires { (8 ≤ length dir.now) × (n_t1 dir.now ≤ 2048) }
    ensures { (d : Directory) → Holds d dir.now → result ≡ t1_at_target d }
{
    UNIT.max(dir[header::P]) <= UNIT * dir[header::T1_LENGTH]
}

// Line 15: the target that a page found in B1 asks for.
pub fn raised(dir: &[u32], dividend: u32) -> u32
    requires b1_not_empty { (8 ≤ length dir.now) × (1 ≤ n_b1 dir.now) × (dividend ≤ 2048) }
    requires target_fits { (size dir.now ≤ 1024) × (get_or dir.now 2 0 ≤ unit * 1024) }
    ensures { (d : Directory) → Holds d dir.now → result ≡ raised_target dividend d }
{
    let step = UNIT.max(UNIT * dividend / dir[header::B1_LENGTH]);
    (dir[header::P] + step).min(UNIT * dir[header::SIZE])
}

// Line 18: the target that a page found in B2 asks for.
pub fn lowered(dir: &[u32], dividend: u32) -> u32
    requires { (8 ≤ length dir.now) × (1 ≤ n_b2 dir.now) × (dividend ≤ 2048) }
    ensures { (d : Directory) → Holds d dir.now → result ≡ lowered_target dividend d }
{
    let step = UNIT.max(UNIT * dividend / dir[header::B2_LENGTH]);
    dir[header::P].saturating_sub(step)
}
