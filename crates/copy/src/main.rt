// The program copy: a bid sheet from standard input, its copy with car where the policy is blank to standard output.
// What it prints is proved in the crates below; what it reads, writes and ends with is `programs::copy`.
#![tactic(auto)]

use std::process::ExitCode;

fn main(rt: HostRuntime) -> ExitCode {
    let mut stdin = rt.stdin();
    programs::copy(&rt, &mut stdin)
}
