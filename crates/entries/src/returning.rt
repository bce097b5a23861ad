// A page that comes back from a history: lines 14 to 19 of both figures.
// The policies differ in the targets' dividends, the list whose tail the page becomes, and its flags there.
// Freed stays a clause: the kit has no ghost field beside a `&mut` (NOT_COVERED.md).
ghost use Rattle.std.specs.Prelude.{◌≤◌};
ghost use Rattle.entries.specs.Returning.{Freed, Returns};

use crate::{header, lists, targets};
use engine::kinds::Kind;

// What a policy asks for: the dividend for a page found in B1 and in B2, the list whose tail it becomes, and its flags.
#[derive(Clone, Copy)]
pub struct Return {
    pub b1: u32,
    pub b2: u32,
    pub tail: usize,
    pub flags: u32,
}

// The page from B1 or B2, and the answer's kind. A page in neither history is new, and nothing changes.
pub fn come_back(dir: &mut [u32], page: u32, to: Return) -> Kind
    requires freed { Freed dir.old }
    requires return_fits { (to.tail ≤ 1) × (to.b1 ≤ 2048) × (to.b2 ≤ 2048) }
    ensures { Returns page to dir.old result dir.new }
{
    if let Some(k) = lists::find(dir, lists::B1, page) {
        dir[header::P] = targets::raised(dir, to.b1);
        lists::come_back(dir, lists::B1, k, to.tail, page, to.flags);
        return Kind::FromB1;
    }
    if let Some(k) = lists::find(dir, lists::B2, page) {
        dir[header::P] = targets::lowered(dir, to.b2);
        lists::come_back(dir, lists::B2, k, to.tail, page, to.flags);
        return Kind::FromB2;
    }
    Kind::New
}
