//! Scripts, from their input to their output.
ghost use Rattle.std.specs.Prelude.{◌≡◌, OnOk, IfErr};
ghost use Rattle.realm_core.specs.Realms.{new_realm};
ghost use Rattle.realm_model.specs.Histories.{Legal};
ghost use Rattle.rgw_script.specs.Runs.{first_user, made, IsUnmade, RunsLines, RunsScript, HasScriptCause};
ghost use Rattle.rgw_script.specs.Stages.{scene_of, Holds, IsOpen, AreBelow};

use crate::cast::Cast;
use crate::fault::ScriptFault;
use crate::line::{play_text, refuse};
use crate::making::make_container;
use crate::script::Script;
use gw_io::{Sink, Source};
use object_words::BucketName;
use realm_core::Realm;
use realm_model::Settings;
use script_lines::{LineReader, Next};
use std::alloc::Global;
use swift_auth::{User, Users};

/// What a script is run on, beside its realm.
#[derive(Drop)]
pub struct ScriptPlan {
    /// The container that is there before the first line, made in zone 1 by the first actor of the first pass, of the
    /// first user's account.
    pub bucket: Option<BucketName>,
    /// The moment that events bring until a line says another, in microseconds since 1970.
    pub moment: u64,
    /// The first of them makes the requests, on the own account.
    pub users: Users,
}

/// The user who makes the requests.
fn first_user(plan: &ScriptPlan) -> &User
    ensures { result.now ≡ first_user plan.now }
{
    plan.users.first()
}

/// Runs a script over a new realm: makes the container of the plan, plays the lines of the input one by one to its
/// end, and writes what each prints. The actors of the lines `start` and `do` are the first ones of the passes 2, 3
/// and so on, in the order of these lines.
///
/// It ends early with `BadLine` at a line that can't be played: it is none, it names an actor that does not play, or
/// it starts one under a name that was used. Then `bad line N` was written.
pub fn run_script<S: Source, K: Sink>(
    alloc: Global,
    settings: &Settings,
    plan: &ScriptPlan,
    realm: &mut Realm,
    input: &mut S,
    output: &mut K,
) -> Result<(), ScriptFault>
    requires { realm.old ≡ new_realm settings.now }
    ensures runs { RunsScript settings.now plan.now (S.left input.old) (S.left input.new)
        (K.taken output.old) (K.taken output.new) realm.new.history result }
    ensures cause { HasScriptCause (S.faults input.old) (S.faults input.new) (K.faults output.old) (K.faults output.new) result }
    ensures legal { Legal settings.now realm.new.history }
    ensures settings { realm.new.settings ≡ settings.now }
{
    make_planned(alloc, settings, plan, realm)?;
    let asker = first_user(plan).clone()?;
    let mut script = Script {
        moment: plan.moment,
        next: 2,
        cast: Cast::new(alloc),
        asker,
    };
    play_lines(alloc, settings, &mut script, realm, input, output)
}

/// Makes the container of the plan in a new realm.
fn make_planned(
    alloc: Global,
    settings: &Settings,
    plan: &ScriptPlan,
    realm: &mut Realm,
) -> Result<(), ScriptFault>
    requires { realm.old ≡ new_realm settings.now }
    ensures made { OnOk result (realm.new.history ≡ made settings.now (first_user plan.now) plan.now.bucket plan.now.moment) }
    ensures stopped { IfErr result (IsUnmade settings.now plan.now realm.new.history) }
    ensures below { AreBelow 2 realm.new.history }
    ensures open { IsOpen settings.now realm.new }
{
    match &plan.bucket {
        Some(bucket) => {
            make_container(
                alloc,
                settings,
                realm,
                bucket,
                first_user(plan),
                plan.moment,
            )
        }
        None => Ok(()),
    }
}

/// Plays the lines of an input, from where the script stands.
fn play_lines<S: Source, K: Sink>(
    alloc: Global,
    settings: &Settings,
    script: &mut Script,
    realm: &mut Realm,
    input: &mut S,
    output: &mut K,
) -> Result<(), ScriptFault>
    requires next { script.old.next ≡ 2 }
    requires holds { Holds settings.now script.old realm.old }
    ensures runs { RunsLines settings.now (scene_of script.old realm.old.history) (S.left input.old) (S.left input.new)
        (K.taken output.old) (K.taken output.new) realm.new.history result }
    ensures cause { HasScriptCause (S.faults input.old) (S.faults input.new) (K.faults output.old) (K.faults output.new) result }
    ensures open { IsOpen settings.now realm.new }
{
    let mut reader = LineReader::new(alloc)?;
    let mut out = Vec::new(alloc);
    let mut number: u64 = 0;
    'lines: loop {
        let next = reader.next(input)?;
        number += 1;
        match next {
            Next::End => return Ok(()),
            Next::TooLong => return Err(refuse(output, &mut out, number)),
            Next::Line => play_text(
                alloc,
                settings,
                script,
                realm,
                reader.line(),
                number,
                output,
                &mut out,
            )?,
        }
    }
}
