// Sheets and traces through the code: document 01's bid sheets read and copied, the look-up, the result writer; the
// council's traces. It prints what each call gave, and the gate compares that with the file stdout.
#![tactic(auto)]

use std::io;

mod bid_sheets;
mod copies;
mod look_ups;
mod result_sheets;
mod show;
mod spc_answers;
mod spc_traces;

fn main(rt: HostRuntime) -> io::Result<()> {
    bid_sheets::all(&rt)?;
    copies::all(&rt)?;
    look_ups::all(&rt)?;
    result_sheets::all(&rt)?;
    spc_traces::all(&rt)?;
    spc_answers::all(&rt)
}
