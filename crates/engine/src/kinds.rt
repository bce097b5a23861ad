// The kinds of an answer, and their numbers.
// The numbers are those of figures/specs/Request.
ghost use Rattle.std.specs.Prelude.{◌≡◌};
ghost use Rattle.engine.specs.Shown.{number_of};

#[derive(Clone, Copy, Debug, PartialEq, Eq)]
pub enum Kind {
    Hit = 0,
    WithRoom = 1,
    New = 2,
    FromB1 = 3,
    FromB2 = 4,
}

impl From<Kind> for u32 {
    ghost from_gives = { λ kind number. number ≡ number_of kind };

    fn from(kind: Kind) -> u32 {
        kind as u32
    }
}
