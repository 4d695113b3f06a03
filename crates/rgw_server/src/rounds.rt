//! The jobs of the realm, round after round.
ghost use Rattle.std.specs.Prelude.{◌≡◌, ◌≤◌};
ghost use Rattle.gateway.specs.Calls.{Advances, MayBegin};
ghost use Rattle.rgw_server.specs.Posts.{IsFresh};

use crate::posts::Post;
use admin_api::run_job;
use gw_io::Clock;
use net_io::Pause;
use object_words::BucketName;
use realm_core::Realm;
use realm_door::Door;
use realm_model::Settings;
use std::alloc::Global;
use std::sync::Wait;
use std::sync::atomic::AtomicBool;
use std::sync::atomic::Ordering::SeqCst;
use task_words::Job;
use turn_cell::{DoorFault, Turn};
use turn_door::TurnDoor;

/// One round: a check of the container. Whether there can be another, which the realm's number of events
/// decides; a job for which memory is wanting is left out of its round.
fn run_round<D: Door, C: Clock>(
    alloc: Global,
    settings: &Settings,
    door: &mut D,
    clock: &mut C,
    job: &Job,
) -> bool
    requires zone { 1 ≤ settings.now.zones }
    requires same { D.settings door.old ≡ settings.now }
    requires ready { D.tells → MayBegin settings.now (D.told door.old) }
    ensures same { D.settings door.new ≡ settings.now }
    ensures ready { D.tells → MayBegin settings.now (D.told door.new) }
    ensures advances { D.tells → Advances settings.now (D.told door.old) (D.told door.new) }
{
    door.begin();
    let outcome = run_job(alloc, door, clock, 1, job);
    !matches!(outcome, Err(DoorFault::Worn))
}

/// Runs rounds, at least one, until there is no more to serve.
fn run_rounds<R: Wait, D: Door, C: Clock, P: Pause>(
    rt: &R,
    alloc: Global,
    settings: &Settings,
    door: &mut D,
    clock: &mut C,
    job: &Job,
    is_over: &AtomicBool,
    pause: &P,
)
    requires zone { 1 ≤ settings.now.zones }
    requires same { D.settings door.old ≡ settings.now }
    requires ready { D.tells → MayBegin settings.now (D.told door.old) }
    ensures advances { D.tells → Advances settings.now (D.told door.old) (D.told door.new) }
{
    for _ in rt.forever() {
        if !run_round(alloc, settings, door, clock, job) || is_over.load(SeqCst) {
            break;
        }
        pause.pause();
    }
}

/// The same at a post whose pass has seen no event, for the container that is named, if one is.
pub(crate) fn run_rounds_at<R: Wait, C: Clock, P: Pause>(
    rt: &R,
    alloc: Global,
    settings: &Settings,
    bucket: &Option<BucketName>,
    cell: &Turn<Realm>,
    post: Post<C>,
    is_over: &AtomicBool,
    pause: &P,
)
    requires fresh { IsFresh cell.now post.pass }
    requires settings { cell.now.fixed ≡ settings.now }
{
    let Post { pass, mut clock } = post;
    let Some(job) = job_for(bucket) else {
        return;
    };
    settings.has_zone_one();
    let mut door = TurnDoor::new(rt, cell, pass);
    run_rounds(
        rt, alloc, settings, &mut door, &mut clock, &job, is_over, pause,
    );
}

/// The job of the rounds; none where no container is named, or memory is wanting.
fn job_for(bucket: &Option<BucketName>) -> Option<Job> {
    let Some(name) = bucket else {
        return None;
    };
    match name.clone() {
        Ok(container) => Some(Job::Check { container }),
        Err(_) => None,
    }
}
