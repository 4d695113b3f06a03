ghost use Rattle.std.specs.Prelude.{◌≡◌, ◌≤◌, length};
ghost use Rattle.http_intake.specs.Intake.{fresh};
ghost use Rattle.gateway.specs.Calls.{MayBegin, MayGoOn, place_of};
ghost use Rattle.gateway.specs.Serving.{ServesConnection};
ghost use Rattle.gateway.specs.Turns.{KeepsPlace};

use crate::ServeFault;
use crate::turn::{Turn, take_turn};
use call_service::{Connected, Connection};
use gw_io::{Clock, Ends, Sink, Source};
use http_intake::Intake;
use realm_door::Door;
use realm_model::Settings;
use std::alloc::Global;
use swift_auth::Users;

/// How a connection ended.
#[derive(Clone, Copy, Debug, PartialEq, Eq)]
pub enum ConnEnd {
    /// The input ended between two requests.
    Clean,
    /// The last reply said `Connection: close`, and the end is not `Refused`.
    Closed,
    /// The input ended inside a request, and nothing was written for it.
    Cut,
    /// A 400 with the word `head`, `size`, `framing` or `chunk`, a 413 or a 501 was written last.
    Refused,
}

/// A connection that was served to its end.
#[derive(Clone, Copy, Debug, PartialEq, Eq)]
pub struct Served {
    /// How many replies were written.
    pub requests: u64,
    pub end: ConnEnd,
}

/// How many bytes of a body are read at once.
const PIECE: usize = 65_536;

/// Serves the requests of one connection in order, each reply before the next request is read, at most
/// 100000 of them. Who asks is said by the token of a request, which is that of one of these users, or of
/// nobody. Each request on an object, a container or an account is served by a task as the next actor of the
/// door's pass. The clock is asked once for each event, and once where the end of a body decides.
pub fn serve_connection<D: Door, S: Source, K: Sink, C: Clock>(
    alloc: Global,
    settings: &Settings,
    users: &Users,
    door: &mut D,
    zone: u8,
    source: &mut S,
    sink: &mut K,
    clock: &mut C,
) -> Result<Served, ServeFault>
    requires low { 1 ≤ zone }
    requires high { zone ≤ settings.now.zones }
    requires same { D.settings door.old ≡ settings.now }
    requires may { D.tells → MayBegin settings.now (D.told door.old) }
    ensures served { ServesConnection D.tells D.alone (place_of settings.now zone users.now) (D.found door.new)
        (D.told door.old) (D.told door.new)
        (⟦<(S, K, C) as Ends>⟧.ends (source.old, sink.old, clock.old))
        (⟦<(S, K, C) as Ends>⟧.ends (source.new, sink.new, clock.new)) result }
    ensures settings { D.settings door.new ≡ D.settings door.old }
    ensures home { D.home door.new ≡ D.home door.old }
{
    let mut intake = match Intake::new(alloc, settings.largest) {
        Ok(intake) => intake,
        Err(_) => return Err(ServeFault::OutOfMemory),
    };
    let mut buffer = match vec![in alloc; 0; PIECE] {
        Ok(buffer) => buffer,
        Err(_) => return Err(ServeFault::OutOfMemory),
    };
    serve_parts(
        alloc,
        settings,
        zone,
        users,
        door,
        clock,
        &mut intake,
        source,
        sink,
        &mut buffer,
    )
}

/// Makes a connection of its parts, of which nothing was read, and serves its requests.
fn serve_parts<D: Door, C: Clock, S: Source, K: Sink>(
    alloc: Global,
    settings: &Settings,
    zone: u8,
    users: &Users,
    door: &mut D,
    clock: &mut C,
    intake: &mut Intake,
    source: &mut S,
    sink: &mut K,
    buffer: &mut [u8],
) -> Result<Served, ServeFault>
    requires goes { MayGoOn D.tells settings.now (D.settings door.old) zone (D.told door.old) (length buffer.old) }
    requires unread { intake.old ≡ fresh settings.now.largest }
    ensures served { ServesConnection D.tells D.alone (place_of settings.now zone users.now) (D.found door.new)
        (D.told door.old) (D.told door.new)
        (⟦<(S, K, C) as Ends>⟧.ends (source.old, sink.old, clock.old))
        (⟦<(S, K, C) as Ends>⟧.ends (source.new, sink.new, clock.new)) result }
    ensures settings { D.settings door.new ≡ D.settings door.old }
    ensures home { D.home door.new ≡ D.home door.old }
{
    let mut out = Vec::new(alloc);
    let mut connection = Connection::new(door, clock, intake, source, sink, buffer, &mut out);
    serve_requests(alloc, settings, zone, users, &mut connection)
}

/// Serves the requests of a connection of which nothing was read.
fn serve_requests<'c, D: Door, C: Clock, S: Source, K: Sink>(
    alloc: Global,
    settings: &Settings,
    zone: u8,
    users: &Users,
    connection: &mut Connection<'c, D, C, S, K>,
) -> Result<Served, ServeFault>
    requires goes { MayGoOn D.tells settings.now (⟦<Connection<'c, D, C, S, K> as Connected>⟧.around connection.old).settings zone (⟦<Connection<'c, D, C, S, K> as Connected>⟧.side connection.old).door (⟦<Connection<'c, D, C, S, K> as Connected>⟧.around connection.old).buffer }
    requires unread { (⟦<Connection<'c, D, C, S, K> as Connected>⟧.side connection.old).intake ≡ fresh settings.now.largest }
    ensures served { ServesConnection D.tells D.alone (place_of settings.now zone users.now) (⟦<Connection<'c, D, C, S, K> as Connected>⟧.found connection.new)
        (⟦<Connection<'c, D, C, S, K> as Connected>⟧.side connection.old).door (⟦<Connection<'c, D, C, S, K> as Connected>⟧.side connection.new).door (⟦<Connection<'c, D, C, S, K> as Connected>⟧.side connection.old).ends (⟦<Connection<'c, D, C, S, K> as Connected>⟧.side connection.new).ends result }
    ensures stays { KeepsPlace (⟦<Connection<'c, D, C, S, K> as Connected>⟧.around connection.old) (⟦<Connection<'c, D, C, S, K> as Connected>⟧.around connection.new) }
{
    let mut done: u64 = 0;
    'requests: loop {
        let k = done + 1;
        match take_turn(alloc, k, settings, zone, users, connection) {
            Ok(Turn::Further) => done = k,
            Ok(Turn::Over(replies, end)) => {
                let requests = done + replies;
                return Ok(Served { requests, end });
            }
            Err(fault) => return Err(fault),
        }
    }
}
