//! The server.
ghost use Rattle.std.specs.Prelude.{◌≡◌, All};
ghost use Rattle.net_io.specs.Ports.{opened};
ghost use Rattle.rgw_server.specs.Ends.{EndsServing, EndsSo};
ghost use Rattle.rgw_server.specs.Posts.{IsFresh};

use crate::accepting::{ServeEnd, accept_all};
use crate::posts::{Post, make_posts};
use crate::preparing::prepare;
use crate::rounds::run_rounds_at;
use crate::working::{Job, work_at};
use crossbeam_channel::Receiver;
use gw_io::{Clock, Sink, Source};
use net_io::{Gate, Net, Pause, Port};
use object_words::BucketName;
use realm_core::Realm;
use realm_model::Settings;
use std::alloc::Global;
use std::sync::Wait;
use std::sync::atomic::AtomicBool;
use std::sync::atomic::Ordering::SeqCst;
use std::thread;
use std::thread::Threads;
use swift_auth::Users;
use turn_cell::Turn;

/// What a server is to do.
#[derive(Debug, Drop)]
pub struct ServePlan {
    pub port: u16,
    /// How many connections are served at once.
    pub workers: u32,
    /// How many connections are taken in all; none is no end.
    pub accepts: Option<u64>,
    /// The name of a container that is made first.
    pub bucket: Option<BucketName>,
}

/// The most accepted connections that may wait for a worker.
const MOST_PLACES: u64 = 512;

/// How many accepted connections may wait for a worker. They are few, so that a crowd of clients takes
/// no more descriptors than there are; where no thread can be made, all of a small number are accepted
/// before the first is served.
fn places_for(plan: &ServePlan) -> usize {
    let all = plan.accepts.unwrap_or(0).min(MOST_PLACES);
    all.max(u64::from(plan.workers)).max(1) as usize
}

/// Runs a worker at each post, in a thread of its own.
fn run_workers<
    R: Wait + Threads + Sync,
    S: Source + Send + Drop,
    K: Sink + Send + Drop,
    C: Clock,
    G: Gate + Sync,
>(
    rt: &R,
    alloc: Global,
    settings: &Settings,
    users: &Users,
    cell: &Turn<Realm>,
    posts: Vec<Post<C>>,
    jobs: &Receiver<Job<S, K>>,
    gate: &G,
)
    requires posts { All (λ post. IsFresh cell.now post.pass) posts.items }
    requires settings { cell.now.fixed ≡ settings.now }
{
    let work = |post: Post<C>|
        requires { IsFresh cell.now post.pass × (cell.now.fixed ≡ settings.now) }
    { work_at(rt, alloc, settings, users, cell, post, jobs, gate) };
    // Where memory runs out some have not run; the others end with their port.
    let _worked = thread::map_vec(rt, posts, &work);
}

/// Serves the connections of a port through these posts, and gives it back.
fn serve_posts<R: Wait + Threads + Sync, P: Port + Drop, C: Clock, G: Gate + Sync>(
    rt: &R,
    alloc: Global,
    settings: &Settings,
    users: &Users,
    plan: &ServePlan,
    cell: &Turn<Realm>,
    posts: Vec<Post<C>>,
    port: P,
    gate: &G,
) -> (P, ServeEnd)
    requires posts { All (λ post. IsFresh cell.now post.pass) posts.items }
    requires settings { cell.now.fixed ≡ settings.now }
    requires port { P.port port ≡ opened plan.now.port }
    ensures { EndsSo plan.now.port plan.now.accepts (P.port result.0) result.1 }
{
    let places = places_for(plan);
    let Ok((to, jobs)) = crossbeam_channel::bounded(alloc, places) else {
        return (port, ServeEnd::OutOfMemory);
    };
    let accepts = plan.accepts;
    let number = plan.port;
    // Where no thread can be made, the second of these runs first.
    let (worked, ended) = thread::join(
        rt,
        ||
            requires { All (λ post. IsFresh cell.now post.pass) posts.items × (cell.now.fixed ≡ settings.now) }
        { run_workers(rt, alloc, settings, users, cell, posts, &jobs, gate) },
        || -> (P, ServeEnd)
            requires { P.port port ≡ opened number }
            ensures { EndsSo number accepts (P.port result.0) result.1 }
        { accept_all(rt, alloc, number, port, accepts, to) },
    );
    let () = worked;
    ended
}

/// The same, while jobs run beside it, round after round.
fn serve_beside_jobs<
    R: Wait + Threads + Sync,
    P: Port + Send + Drop,
    C: Clock,
    G: Gate + Sync,
    T: Pause + Sync,
>(
    rt: &R,
    alloc: Global,
    settings: &Settings,
    users: &Users,
    plan: &ServePlan,
    cell: &Turn<Realm>,
    posts: Vec<Post<C>>,
    job_post: Post<C>,
    port: P,
    gate: &G,
    pause: &T,
) -> (P, ServeEnd)
    requires posts { All (λ post. IsFresh cell.now post.pass) posts.items }
    requires job_post { IsFresh cell.now job_post.pass }
    requires settings { cell.now.fixed ≡ settings.now }
    requires port { P.port port ≡ opened plan.now.port }
    ensures { EndsSo plan.now.port plan.now.accepts (P.port result.0) result.1 }
{
    let is_over = AtomicBool::new(false);
    let bucket = &plan.bucket;
    let (worked, ended) = thread::join(
        rt,
        ||
            requires { IsFresh cell.now job_post.pass × (cell.now.fixed ≡ settings.now) }
        { run_rounds_at(rt, alloc, settings, bucket, cell, job_post, &is_over, pause) },
        || -> (P, ServeEnd)
            requires { All (λ post. IsFresh cell.now post.pass) posts.items × (cell.now.fixed ≡ settings.now) × (P.port port ≡ opened plan.now.port) }
            ensures { EndsSo plan.entry.now.port plan.entry.now.accepts (P.port result.0) result.1 }
        {
            let ended = serve_posts(rt, alloc, settings, users, plan, cell, posts, port, gate);
            is_over.store(true, SeqCst);
            ended
        },
    );
    let () = worked;
    ended
}

/// Serves the connections of a port to a new realm, and gives it back.
fn serve_port<
    R: Wait + Threads + Sync,
    P: Port + Send + Drop,
    C: Clock,
    G: Gate + Sync,
    T: Pause + Sync,
>(
    rt: &R,
    alloc: Global,
    settings: &Settings,
    users: &Users,
    plan: &ServePlan,
    clock: &mut C,
    port: P,
    gate: &G,
    pause: &T,
) -> (P, ServeEnd)
    requires { P.port port ≡ opened plan.now.port }
    ensures { EndsSo plan.now.port plan.now.accepts (P.port result.0) result.1 }
{
    let Ok(realm) = Realm::new(alloc, settings) else {
        return (port, ServeEnd::OutOfMemory);
    };
    let Ok((cell, mut first)) = Turn::new(alloc, realm) else {
        return (port, ServeEnd::OutOfMemory);
    };
    let maker = cell.split(&mut first, 1);
    let bucket = &plan.bucket;
    let made = prepare(rt, alloc, settings, users, bucket, &cell, maker, clock);
    if made.is_err() {
        return (port, ServeEnd::OutOfMemory);
    }
    let Ok(posts) = make_posts(alloc, &cell, &mut first, clock, plan.workers) else {
        return (port, ServeEnd::OutOfMemory);
    };
    let job_post = Post {
        pass: first,
        clock: clock.twin(),
    };
    serve_beside_jobs(
        rt, alloc, settings, users, plan, &cell, posts, job_post, port, gate, pause,
    )
}

/// Serves the connections of one port, by these users, to a new realm, while jobs run over the same realm,
/// until the port gave as many as were wanted, or is shut, and all were served. A connection's fault ends that
/// connection alone. The port is taken back.
pub fn serve<R: Wait + Threads + Sync, C: Clock, N: Net, G: Gate + Sync, T: Pause + Sync>(
    rt: &R,
    alloc: Global,
    settings: &Settings,
    users: &Users,
    plan: &ServePlan,
    clock: &mut C,
    net: &mut N,
    gate: &G,
    pause: &T,
) -> ServeEnd
    ensures { EndsServing plan.now.port plan.now.accepts (N.faults net.old) (N.faults net.new) (N.closed net.old) (N.closed net.new) result }
{
    let Ok(port) = net.listen(plan.port) else {
        return ServeEnd::Failed;
    };
    let (port, end) = serve_port(rt, alloc, settings, users, plan, clock, port, gate, pause);
    net.close(port);
    end
}
