// The program ledger: a bid sheet from standard input, its result sheet and a line for each request to standard output.
// What it prints is proved in the crates below; what it reads, writes and ends with is `programs::ledger`.
#![tactic(auto)]

use std::process::ExitCode;

fn main(rt: HostRuntime) -> ExitCode {
    let mut stdin = rt.stdin();
    programs::ledger(&rt, &mut stdin)
}
