//! `entangle run`: reads tables, opening rows and scripts from standard input, runs the scripts, and writes their
//! report to standard output.
#![tactic(auto)]

use std::io::IsTerminal;
use std::process::ExitCode;

fn main(rt: HostRuntime) -> ExitCode {
    let is_terminal = rt.stdin().is_terminal();
    ent_command::entangle(&rt, &rt, is_terminal).exit_code()
}
