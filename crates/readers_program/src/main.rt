//! The program over the standard streams.
#![tactic(auto)]

use readers::program::serve;
use std::process::ExitCode;

fn main(rt: HostRuntime) -> ExitCode {
    serve(&rt, &mut rt.stdin(), &mut rt.stdout(), &mut rt.stderr())
}
