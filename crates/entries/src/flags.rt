// The flags word of an entry: what it says, and the word with a flag set or taken away.
// No flags word is taken apart or put together elsewhere. The numbers are those of figures/specs/Words.
// They stay numbers: a word of the directory is one (document 01).
ghost use Rattle.std.specs.Prelude.{◌≤◌};
ghost use Rattle.figures.specs.Entry.{marked, cleared, made_long, demoted, is_long};
ghost use Rattle.entries.specs.Flags.{Says, Becomes, of_flag};

pub const BIT: u32 = 1;

pub const LONG: u32 = 2;

// All flags at once: most_flags of figures/specs/Words.
pub const MOST: u32 = 3;

// The flags of a page that is new or comes back: its bit clear, and S or L.
pub const NEW_SHORT: u32 = 0;

pub const NEW_LONG: u32 = 2;

// What the flags count for by one flag: 1 where it is set.
pub fn counts(f: u32, flag: u32) -> u32
    requires { (1 ≤ flag) × (flag ≤ 2) }
    ensures { (result ≤ 1) × Says (of_flag flag) f result }
{
    f / flag % 2
}

pub fn bit(f: u32) -> bool
    ensures { Says (λ e. e.bit) f result }
{
    f & BIT != 0
}

pub fn long(f: u32) -> bool
    ensures { Says (λ e. is_long e.filter) f result }
{
    f & LONG != 0
}

pub fn marked(f: u32) -> u32
    ensures { Becomes marked f result }
{
    f | BIT
}

pub fn cleared(f: u32) -> u32
    ensures { Becomes cleared f result }
{
    f & !BIT
}

pub fn made_long(f: u32) -> u32
    ensures { Becomes made_long f result }
{
    f | LONG
}

pub fn demoted(f: u32) -> u32
    ensures { Becomes demoted f result }
{
    f
}
