//! The gateway as a program. `rgw once --bucket NAME` serves one connection to a new container of
//! that name, from standard input to standard output; with `--now N` behind it each request has that
//! moment, in microseconds since 1970, and no clock is asked. `rgw serve` serves the connections of a port.
#![tactic(auto)]

use rgw_run::run_on_system;
use std::process::ExitCode;

fn main(rt: HostRuntime) -> ExitCode {
    run_on_system(rt)
}
