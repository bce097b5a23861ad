// How large a cache, a trace, a sheet, a page number may be, and how many bytes a result sheet is lent.
// The numbers are those of specs/Limits.
ghost use Rattle.std.specs.Prelude.{◌≡◌};
ghost use Rattle.terms.specs.Limits.{known_size};

pub const MOST_SIZE: u32 = 1024;

pub const MOST_PAGES: usize = 1000;

pub const MOST_SHEET_BYTES: usize = 16000;

pub const LEAST_RESULT_BYTES: usize = 256;

pub const MOST_TRACE_BYTES: usize = 16000;

pub const MOST_PAGE: u64 = 4294967295;

pub fn known_size(c: u32) -> bool
    ensures { result ≡ known_size c }
{
    1 <= c && c <= MOST_SIZE
}
