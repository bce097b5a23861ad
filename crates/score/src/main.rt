// The program score: a bid sheet from standard input, its result sheet to standard output.
// What it prints is proved in the crates below; what it reads, writes and ends with is `programs::score`.
#![tactic(auto)]

use std::process::ExitCode;

fn main(rt: HostRuntime) -> ExitCode {
    let mut stdin = rt.stdin();
    programs::score(&rt, &mut stdin)
}
