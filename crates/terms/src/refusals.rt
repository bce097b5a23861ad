// Why a call is refused, by what each refusal says, and its number in document 01's table.
// The numbers are those of specs/Refusals; 0 is the number of an accepted call.
ghost use Rattle.std.specs.Prelude.{◌≡◌};
ghost use Rattle.terms.specs.Refusals.{number_of, number_in};

#[derive(Clone, Copy, Debug, PartialEq, Eq)]
pub enum Refusal {
    PolicyNotKnown = 1,
    SizeNotKnown = 2,
    WrongLength = 3,
    NotSound = 4,
    TooManyPages = 5,
    BufferTooShort = 6,
    SheetTooLong = 7,
    NoSuchLine = 8,
    NotInForm = 9,
    NoRecord = 10,
    PageTooLarge = 11,
}

// The refusal of a sheet or a trace: why, and at which line from 1; 0, as document 01 says, where it is of no line.
#[derive(Clone, Copy, Debug, PartialEq, Eq)]
pub struct RefusedAt {
    pub refusal: Refusal,
    pub line: u32,
}

impl Refusal {
    pub fn at(self, line: u32) -> RefusedAt
        ensures refusal { result.refusal ≡ self }
        ensures line { result.line ≡ line }
    {
        RefusedAt {
            refusal: self,
            line,
        }
    }
}

impl From<Refusal> for u32 {
    ghost from_gives = { λ refusal number. number ≡ number_of refusal };

    fn from(refusal: Refusal) -> u32 {
        refusal as u32
    }
}

// The number of an answer: 0 where the call is accepted.
pub fn number_in<T: Drop>(answer: Result<T, Refusal>) -> u32
    ensures { result ≡ number_in answer }
{
    match answer {
        Ok(_) => 0,
        Err(refusal) => refusal.into(),
    }
}
