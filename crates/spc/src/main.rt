// The program spc: a trace of the council from standard input, the page lines of one unit to standard output.
// What it prints is proved in the crates below; what it reads, writes and ends with is `programs::spc`.
#![tactic(auto)]

use std::process::ExitCode;

fn main(rt: HostRuntime) -> ExitCode {
    let mut stdin = rt.stdin();
    programs::spc(&rt, &mut stdin)
}
