//! Serving one connection after another.
ghost use Rattle.std.specs.Prelude.{◌≡◌, ◌≤◌};
ghost use Rattle.gateway.specs.Calls.{Advances, MayBegin};
ghost use Rattle.rgw_server.specs.Posts.{IsFresh};

use crate::posts::Post;
use crossbeam_channel::Receiver;
use gateway::serve_connection;
use gw_io::{Clock, Sink, Source};
use net_io::Gate;
use realm_core::Realm;
use realm_door::Door;
use realm_model::Settings;
use std::alloc::Global;
use std::sync::Wait;
use swift_auth::Users;
use turn_cell::Turn;
use turn_door::TurnDoor;

/// An accepted connection, with its number.
#[derive(Drop)]
pub(crate) struct Job<S, K> {
    pub number: u64,
    pub source: S,
    pub sink: K,
}

/// Serves a connection to its end, and lets it go. A fault ends that connection alone: the door is ready
/// for the next one.
fn serve_job<D: Door, S: Source + Drop, K: Sink + Drop, C: Clock>(
    alloc: Global,
    settings: &Settings,
    users: &Users,
    door: &mut D,
    clock: &mut C,
    mut source: S,
    mut sink: K,
)
    requires zone { 1 ≤ settings.now.zones }
    requires same { D.settings door.old ≡ settings.now }
    requires ready { D.tells → MayBegin settings.now (D.told door.old) }
    ensures same { D.settings door.new ≡ settings.now }
    ensures ready { D.tells → MayBegin settings.now (D.told door.new) }
    ensures advances { D.tells → Advances settings.now (D.told door.old) (D.told door.new) }
{
    let _served = serve_connection(
        alloc,
        settings,
        users,
        door,
        1,
        &mut source,
        &mut sink,
        clock,
    );
    // The half that is read from closes the connection so that the last reply is not lost.
    drop(source);
    drop(sink);
}

/// Serves connections as they come, until no more can.
fn work<R: Wait, D: Door, S: Source + Drop, K: Sink + Drop, C: Clock, G: Gate>(
    rt: &R,
    alloc: Global,
    settings: &Settings,
    users: &Users,
    door: &mut D,
    clock: &mut C,
    jobs: &Receiver<Job<S, K>>,
    gate: &G,
)
    requires zone { 1 ≤ settings.now.zones }
    requires same { D.settings door.old ≡ settings.now }
    requires ready { D.tells → MayBegin settings.now (D.told door.old) }
    ensures advances { D.tells → Advances settings.now (D.told door.old) (D.told door.new) }
{
    for _ in rt.forever() {
        let Ok(job) = jobs.recv(rt) else {
            break;
        };
        let Job {
            number,
            source,
            sink,
        } = job;
        gate.enter(number);
        serve_job(alloc, settings, users, door, clock, source, sink);
        gate.leave(number);
    }
}

/// The same at a post whose pass has seen no event.
pub(crate) fn work_at<R: Wait, S: Source + Drop, K: Sink + Drop, C: Clock, G: Gate>(
    rt: &R,
    alloc: Global,
    settings: &Settings,
    users: &Users,
    cell: &Turn<Realm>,
    post: Post<C>,
    jobs: &Receiver<Job<S, K>>,
    gate: &G,
)
    requires fresh { IsFresh cell.now post.pass }
    requires settings { cell.now.fixed ≡ settings.now }
{
    let Post { pass, mut clock } = post;
    settings.has_zone_one();
    let mut door = TurnDoor::new(rt, cell, pass);
    work(
        rt, alloc, settings, users, &mut door, &mut clock, jobs, gate,
    );
}
