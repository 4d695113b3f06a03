//! A run of a script: its realm, and its lines.
ghost use Rattle.std.specs.Prelude.{◌≡◌, None, Some};
ghost use Rattle.rgw_run.specs.Scripted.{RunsScripted, script_status};

use crate::status::Status;
use gw_io::{Clock, Ends, Sink, Source};
use realm_core::Realm;
use rgw_script::{ScriptFault, ScriptPlan, run_script};
use rgw_words::RunWords;
use std::alloc::Global;

/// Makes the realm, runs the script of the input over it, and leaves the realm. The clock is not asked.
pub(crate) fn run_scripted<S: Source, K: Sink, C: Clock>(
    alloc: Global,
    script: RunWords,
    input: &mut S,
    output: &mut K,
    clock: &C,
    realm: &mut Option<Realm>,
) -> Status
    requires { realm.old ≡ None }
    ensures { RunsScripted script
        (⟦<(S, K, C) as Ends>⟧.ends (input.old, output.old, clock.now))
        (⟦<(S, K, C) as Ends>⟧.ends (input.new, output.new, clock.now)) realm.new result.number }
{
    let RunWords {
        bucket,
        settings,
        now,
        users,
    } = script;
    let Ok(mut made) = Realm::new(alloc, &settings) else {
        return Status { number: 4 };
    };
    let plan = ScriptPlan {
        bucket,
        moment: now.unwrap_or(0),
        users,
    };
    let result = run_script(alloc, &settings, &plan, &mut made, input, output);
    *realm = Some(made);
    Status {
        number: script_status(result),
    }
}

fn script_status(ended: Result<(), ScriptFault>) -> u8
    ensures { result ≡ script_status ended }
{
    match ended {
        Ok(()) => 0,
        Err(ScriptFault::ReadFault) => 2,
        Err(ScriptFault::WriteFault) => 3,
        Err(ScriptFault::OutOfMemory) => 4,
        Err(ScriptFault::BadLine { .. }) => 5,
        Err(ScriptFault::Worn) => 7,
    }
}
