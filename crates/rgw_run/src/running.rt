// A run of the program that serves one connection or plays a script, over any input, output and clock.
ghost use Rattle.std.specs.Prelude.{◌≡◌, ◌^◌, IfSome, IsSome, None, Some, [], length, map, string_bytes, IfOk, IfErr, OnOk, OnErr};
ghost use Rattle.realm_core.specs.Realms.{new_realm};
ghost use Rattle.realm_model.specs.Settings.{IsSettings};
ghost use Rattle.container_preset.specs.Presets.{IsFresh};
ghost use Rattle.realm_model.specs.Histories.{Legal};
ghost use Rattle.rgw_words.specs.Words.{once_of, script_of, may_ask};
ghost use Rattle.turn_cell.specs.declared.machine.DoorFault.TheVariants.{Worn};
ghost use Rattle.rgw_run.specs.Exact.{RunsExactlyIf};
ghost use Rattle.rgw_run.specs.Preparing.{HasPrepared, StopsPreparing};
ghost use Rattle.rgw_run.specs.Runs.{RunsAlone, RunsOnce, RunsByClock, RunsAt, HasRunCause, IsInTime, Leaves, end_of, status_by, end_status, fault_status, door_status};

use crate::once_end::OnceEnd;
use crate::scripted::run_scripted;
use crate::status::Status;
use container_preset::preset_bucket;
use gateway::{ConnEnd, ServeFault, Served, serve_connection};
use gw_io::{Clock, Ends, Sink, Source, StepClock};
use object_words::BucketName;
use realm_core::{Realm, SoloDoor};
use realm_door::Door;
use realm_model::{Actor, Settings};
use rgw_types::Text;
use rgw_words::{RunWords, WordsFault, read_once, read_script};
use std::alloc::Global;
use swift_auth::Users;
use turn_cell::DoorFault;

/// Does what the words ask, where they ask for no server, and leaves the realm that it made.
pub(crate) fn run_alone<S: Source, K: Sink, C: Clock>(
    alloc: Global,
    words: &[String],
    input: &mut S,
    output: &mut K,
    clock: &mut C,
    realm: &mut Option<Realm>,
) -> Status
    requires { realm.old ≡ None }
    ensures runs { RunsAlone (once_of (map string_bytes words.now)) (script_of (map string_bytes words.now)) (may_ask (map string_bytes words.now))
        (⟦<(S, K, C) as Ends>⟧.ends (input.old, output.old, clock.old))
        (⟦<(S, K, C) as Ends>⟧.ends (input.new, output.new, clock.new)) realm.new result.number }

    // At one moment the replies are those of one bucket map, folded over the requests from the empty container.
    ensures exact { RunsExactlyIf (once_of (map string_bytes words.now))
        (⟦<(S, K, C) as Ends>⟧.ends (input.old, output.old, clock.old))
        (⟦<(S, K, C) as Ends>⟧.ends (input.new, output.new, clock.new)) realm.new result.number }

    // Where the words are refused, nothing else happens.
    ensures untouched { result.number ≡ 1
        → (input.new ≡ input.old) × (output.new ≡ output.old) × (clock.new ≡ clock.old) }

    // The clock is not asked where the words say the moment, and by no script.
    ensures unasked { IfSome (once_of (map string_bytes words.now)) (λ once.
        IsSome once.now → clock.new ≡ clock.old) }
    ensures by_lines { IsSome (script_of (map string_bytes words.now)) → clock.new ≡ clock.old }
{
    match read_once(alloc, words) {
        Ok(once) => serve_once(alloc, once, input, output, clock, realm),
        Err(WordsFault::Refused) => run_other(alloc, words, input, output, clock, realm),
        Err(WordsFault::OutOfMemory) => Status { number: 4 },
    }
}

/// Runs the script that the words ask for, which ask for nothing else.
fn run_other<S: Source, K: Sink, C: Clock>(
    alloc: Global,
    words: &[String],
    input: &mut S,
    output: &mut K,
    clock: &C,
    realm: &mut Option<Realm>,
) -> Status
    requires none { once_of (map string_bytes words.now) ≡ None }
    requires new { realm.old ≡ None }
    ensures runs { RunsAlone (once_of (map string_bytes words.now)) (script_of (map string_bytes words.now)) (may_ask (map string_bytes words.now))
        (⟦<(S, K, C) as Ends>⟧.ends (input.old, output.old, clock.now))
        (⟦<(S, K, C) as Ends>⟧.ends (input.new, output.new, clock.now)) realm.new result.number }
    ensures untouched { result.number ≡ 1 → (input.new ≡ input.old) × (output.new ≡ output.old) }
{
    match read_script(alloc, words) {
        Ok(script) => run_scripted(alloc, script, input, output, clock, realm),
        Err(WordsFault::Refused) => Status { number: 1 },
        Err(WordsFault::OutOfMemory) => Status { number: 4 },
    }
}

/// Serves the one connection.
fn serve_once<S: Source, K: Sink, C: Clock>(
    alloc: Global,
    once: RunWords,
    input: &mut S,
    output: &mut K,
    clock: &mut C,
    realm: &mut Option<Realm>,
) -> Status
    requires new { realm.old ≡ None }
    requires bounds { IsSettings once.settings }
    ensures runs { RunsOnce once
        (⟦<(S, K, C) as Ends>⟧.ends (input.old, output.old, clock.old))
        (⟦<(S, K, C) as Ends>⟧.ends (input.new, output.new, clock.new)) realm.new result.number }
    ensures unasked { IsSome once.now → clock.new ≡ clock.old }
{
    let RunWords {
        bucket,
        settings,
        now,
        users,
    } = once;
    match now {
        None => serve_by_clock(
            alloc, &settings, &users, &bucket, input, output, clock, realm,
        ),
        Some(moment) => {
            serve_at(
                alloc, &settings, &users, &bucket, moment, input, output, realm,
            )
        }
    }
}

/// Serves the connection, each event at this moment.
fn serve_at<S: Source, K: Sink>(
    alloc: Global,
    settings: &Settings,
    users: &Users,
    bucket: &Option<BucketName>,
    moment: u64,
    input: &mut S,
    output: &mut K,
    realm: &mut Option<Realm>,
) -> Status
    requires new { realm.old ≡ None }
    requires bounds { IsSettings settings.now }
    ensures { RunsAt settings.now users.now bucket.now moment
        (record { left = S.left input.old; taken = K.taken output.old; told = None; plan = None; read_faults = S.faults input.old; write_faults = K.faults output.old })
        (record { left = S.left input.new; taken = K.taken output.new; told = None; plan = None; read_faults = S.faults input.new; write_faults = K.faults output.new }) realm.new result.number }
{
    let mut clock = StepClock::new(moment, 0);
    serve_by_clock(
        alloc, settings, users, bucket, input, output, &mut clock, realm,
    )
}

/// Serves the connection, each event at the moment that the clock tells.
fn serve_by_clock<S: Source, K: Sink, C: Clock>(
    alloc: Global,
    settings: &Settings,
    users: &Users,
    bucket: &Option<BucketName>,
    input: &mut S,
    output: &mut K,
    clock: &mut C,
    realm: &mut Option<Realm>,
) -> Status
    requires new { realm.old ≡ None }
    requires bounds { IsSettings settings.now }
    ensures { RunsByClock settings.now users.now bucket.now
        (⟦<(S, K, C) as Ends>⟧.ends (input.old, output.old, clock.old))
        (⟦<(S, K, C) as Ends>⟧.ends (input.new, output.new, clock.new)) realm.new result.number }
{
    let end = serve_realm(alloc, settings, users, bucket, input, output, clock, realm);
    status_of(end)
}

/// Makes the realm, and the container in it that is named, serves the connection to it, and leaves the realm.
fn serve_realm<S: Source, K: Sink, C: Clock>(
    alloc: Global,
    settings: &Settings,
    users: &Users,
    bucket: &Option<BucketName>,
    input: &mut S,
    output: &mut K,
    clock: &mut C,
    realm: &mut Option<Realm>,
) -> OnceEnd
    requires new { realm.old ≡ None }
    requires bounds { IsSettings settings.now }
    ensures leaves { Leaves settings.now users.now bucket.now
        (⟦<(S, K, C) as Ends>⟧.ends (input.old, output.old, clock.old))
        (⟦<(S, K, C) as Ends>⟧.ends (input.new, output.new, clock.new)) realm.new result }
    ensures cause { HasRunCause
        (⟦<(S, K, C) as Ends>⟧.ends (input.old, output.old, clock.old))
        (⟦<(S, K, C) as Ends>⟧.ends (input.new, output.new, clock.new)) (status_by result) }
    ensures in_time { IsInTime result }
{
    let Ok(mut made) = Realm::new(alloc, settings) else {
        return OnceEnd::Unmade;
    };
    let end = serve_in(
        alloc, settings, users, bucket, &mut made, input, output, clock,
    );
    *realm = Some(made);
    end
}

/// Makes the container that is named in a new realm, and serves the connection to it.
fn serve_in<S: Source, K: Sink, C: Clock>(
    alloc: Global,
    settings: &Settings,
    users: &Users,
    bucket: &Option<BucketName>,
    realm: &mut Realm,
    input: &mut S,
    output: &mut K,
    clock: &mut C,
) -> OnceEnd
    requires bounds { IsSettings settings.now }
    requires new { realm.old ≡ new_realm settings.now }
    ensures leaves { Leaves settings.now users.now bucket.now
        (⟦<(S, K, C) as Ends>⟧.ends (input.old, output.old, clock.old))
        (⟦<(S, K, C) as Ends>⟧.ends (input.new, output.new, clock.new)) (Some realm.new) result }
    ensures cause { HasRunCause
        (⟦<(S, K, C) as Ends>⟧.ends (input.old, output.old, clock.old))
        (⟦<(S, K, C) as Ends>⟧.ends (input.new, output.new, clock.new)) (status_by result) }
    ensures in_time { IsInTime result }
{
    let mut actor = Actor::new(1);
    let mut door = SoloDoor::new(realm, &mut actor);
    let owner = users.first().account();
    if let Err(fault) = prepare(alloc, settings, bucket, owner, &mut door, clock) {
        return OnceEnd::Unbegun(fault);
    }
    settings.has_zone_one();
    let outcome = serve_connection(alloc, settings, users, &mut door, 1, input, output, clock);
    end_of(outcome)
}

/// Makes the container that is named, if one is, at the moment now.
fn prepare<D: Door, C: Clock>(
    alloc: Global,
    settings: &Settings,
    bucket: &Option<BucketName>,
    owner: &Text,
    door: &mut D,
    clock: &mut C,
) -> Result<(), DoorFault>
    requires settings { D.settings door.old ≡ settings.now }
    requires fresh { D.tells → IsFresh settings.now (D.told door.old) }
    ensures ready { OnOk result (HasPrepared D.tells D.alone settings.now bucket.now owner.now
        (D.told door.old) (D.told door.new) (C.told clock.old) (C.told clock.new)) }
    ensures stopped { OnErr result (StopsPreparing D.tells D.alone settings.now bucket.now
        (D.told door.old) (D.told door.new) (C.told clock.old) (C.told clock.new)) }
    ensures legal { D.tells → Legal settings.now (D.told door.new).seen }
    ensures worn { IfErr result (λ f. D.tells → f ≡ Worn → length (D.found door.new) ≡ 2 ^ 62) }
    ensures plan { C.plan clock.new ≡ C.plan clock.old }
    ensures settings { D.settings door.new ≡ D.settings door.old }
    ensures home { D.home door.new ≡ D.home door.old }
{
    match bucket {
        None => Ok(()),
        Some(name) => {
            let moment = clock.now();
            preset_bucket(alloc, settings, door, name, owner, moment)
        }
    }
}

/// How the run ended, by what the connection came to.
fn end_of(outcome: Result<Served, ServeFault>) -> OnceEnd
    ensures { result ≡ end_of outcome }
{
    match outcome {
        Ok(served) => OnceEnd::Ended(served),
        Err(fault) => OnceEnd::Stopped(fault),
    }
}

fn end_status(end: ConnEnd) -> u8
    ensures { result ≡ end_status end }
{
    match end {
        ConnEnd::Clean | ConnEnd::Closed => 0,
        ConnEnd::Cut | ConnEnd::Refused => 5,
    }
}

fn fault_status(fault: ServeFault) -> u8
    ensures { result ≡ fault_status fault }
{
    match fault {
        ServeFault::ReadFault => 2,
        ServeFault::WriteFault => 3,
        ServeFault::OutOfMemory => 4,
        ServeFault::Late { .. } => 5,
        ServeFault::Worn => 7,
    }
}

fn door_status(fault: DoorFault) -> u8
    ensures { result ≡ door_status fault }
{
    match fault {
        DoorFault::OutOfMemory => 4,
        DoorFault::Worn => 7,
    }
}

fn status_of(end: OnceEnd) -> Status
    ensures { result.number ≡ status_by end }
{
    let number = match end {
        OnceEnd::Unmade => 4,
        OnceEnd::Unbegun(fault) => door_status(fault),
        OnceEnd::Ended(Served { end, .. }) => end_status(end),
        OnceEnd::Stopped(fault) => fault_status(fault),
    };
    Status { number }
}
