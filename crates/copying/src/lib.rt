// The copy of a sheet that was filed before a blank policy meant cart: it says `car` where that one is blank.
// Both public functions are total; what they promise is in specs/Promises.
#![tactic(auto)]

ghost use Rattle.sheets.specs.Copy.{with_car};
ghost use Rattle.result.specs.Put.{PutFits, Put};
ghost use Rattle.copying.specs.Promises.{RoomForCar, SheetCopied, CopyAnswered};

use result::Place;
use terms::limits;
use terms::policies::Policy;
use terms::refusals::{Refusal, RefusedAt};

// The first line where the policy is blank, and where in it the name goes.
const BLANK: [u8; 8] = *b"policy=\n";

const BEHIND_KEY: usize = 7;

// What the name adds to the sheet.
const NAME_BYTES: usize = 3;

// Puts the sheet as it is.
fn put_sheet(out: &mut [u8], sheet: &[u8]) -> usize
    requires { PutFits out.old 0 sheet.now }
    ensures { Put out.old 0 sheet.now out.new result }
{
    let mut place = Place { out, at: 0 };
    place.put(sheet);
    place.at
}

// Puts the sheet, with the name behind its key.
fn put_with_car(out: &mut [u8], sheet: &[u8]) -> usize
    requires { RoomForCar sheet.now out.old }
    ensures { Put out.old 0 (with_car sheet.now) out.new result }
{
    let mut place = Place { out, at: 0 };
    place.put(&sheet[..BEHIND_KEY]);
    place.put(Policy::Car.name());
    place.put(&sheet[BEHIND_KEY..]);
    place.at
}

// Copies a sheet to the front of out. Refusals: 6 where out has no room for every copy, those of the sheet as it was
// filed, and 7 where the copy is too long.
pub fn copy(sheet: &[u8], out: &mut [u8]) -> Result<usize, RefusedAt>
    ensures { SheetCopied sheet.now out.old result out.new }
{
    if out.len() < limits::MOST_SHEET_BYTES {
        return Err(Refusal::BufferTooShort.at(0));
    }
    bid::judge(sheet, u32::from(Policy::Car))?;
    if !text::starts_with(sheet, &BLANK) {
        return Ok(put_sheet(out, sheet));
    }
    if limits::MOST_SHEET_BYTES < sheet.len() + NAME_BYTES {
        return Err(Refusal::SheetTooLong.at(0));
    }
    Ok(put_with_car(out, sheet))
}

// What the program copy prints of a sheet, in front of out: the copy, or the two lines of a refusal. Refusal 6.
#[tactic(auto, using(crate::proofs::Printing::none_printed))]
pub fn answer(sheet: &[u8], out: &mut [u8]) -> Result<usize, Refusal>
    ensures { CopyAnswered sheet.now out.old result out.new }
{
    if out.len() < limits::MOST_SHEET_BYTES {
        return Err(Refusal::BufferTooShort);
    }
    match copy(sheet, out) {
        Ok(count) => Ok(count),
        Err(refused) => result::write_refusal(out, refused.refusal.into(), refused.line),
    }
}
