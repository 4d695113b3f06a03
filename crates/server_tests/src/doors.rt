// Two passes of one cell, on two threads.
ghost use Rattle.std.specs.Prelude.{◌≡◌, ◌≤◌};
ghost use Rattle.gateway.specs.Calls.{MayBegin};
ghost use Rattle.rgw_server.specs.Posts.{IsFresh};

use crate::fixtures::{EARLY, container, small_settings, standard_users};
use container_preset::preset_bucket;
use gateway::serve_connection;
use gw_io::{SliceSource, StepClock, VecSink};
use realm_core::Realm;
use realm_door::Door;
use realm_model::Settings;
use rgw_types::Text;
use std::alloc::Global;
use std::sync::Wait;
use std::test::Fail;
use std::thread::join;
use swift_auth::Users;
use turn_cell::{Pass, Turn};
use turn_door::TurnDoor;

const PUT_IN_BOX: &[u8] =
    b"PUT /swift/v1/AUTH_acme/box/k HTTP/1.1\r\nHost: h\r\nX-Auth-Token: AUTH_tk1\r\nContent-Length: 5\r\n\r\nhello";

const PUT_IN_BAG: &[u8] =
    b"PUT /swift/v1/AUTH_acme/bag/m HTTP/1.1\r\nHost: h\r\nX-Auth-Token: AUTH_tk1\r\nContent-Length: 3\r\n\r\nabc";

const GETS: &[u8] =
    b"GET /swift/v1/AUTH_acme/box/k HTTP/1.1\r\nHost: h\r\nX-Auth-Token: AUTH_tk1\r\n\r\nGET /swift/v1/AUTH_acme/bag/m HTTP/1.1\r\nHost: h\r\nX-Auth-Token: AUTH_tk1\r\n\r\n";

// What a connection of these bytes is replied through a door.
fn replies<D: Door>(
    alloc: Global,
    settings: &Settings,
    users: &Users,
    door: &mut D,
    input: &[u8],
) -> Vec<u8>
    requires zone { 1 ≤ settings.now.zones }
    requires same { D.settings door.old ≡ settings.now }
    requires ready { D.tells → MayBegin settings.now (D.told door.old) }
{
    let mut source = SliceSource::new(input, usize::MAX, &[]);
    let mut sink = VecSink::new(alloc, usize::MAX, &[]);
    let mut clock = StepClock::new(EARLY, 0);
    let _served = serve_connection(
        alloc,
        settings,
        users,
        door,
        1,
        &mut source,
        &mut sink,
        &mut clock,
    );
    sink.into_bytes()
}

// The same through a pass that has seen no event.
fn replies_through<R: Wait>(
    rt: &R,
    alloc: Global,
    settings: &Settings,
    users: &Users,
    cell: &Turn<Realm>,
    pass: Pass<Realm>,
    input: &[u8],
) -> Vec<u8>
    requires fresh { IsFresh cell.now pass }
    requires settings { cell.now.fixed ≡ settings.now }
{
    settings.has_zone_one();
    let mut door = TurnDoor::new(rt, cell, pass);
    replies(alloc, settings, users, &mut door, input)
}

// Makes a container through a pass that has seen no event.
fn make<R: Wait>(
    rt: &R,
    alloc: Global,
    settings: &Settings,
    cell: &Turn<Realm>,
    pass: Pass<Realm>,
    name: &str,
) -> Result<(), Fail>
    requires fresh { IsFresh cell.now pass }
    requires settings { cell.now.fixed ≡ settings.now }
{
    let name = container(alloc, name)?;
    let owner = Text::from_str(alloc, "acme")?;
    let mut door = TurnDoor::new(rt, cell, pass);
    match preset_bucket(alloc, settings, &mut door, &name, &owner, EARLY) {
        Ok(()) => Ok(()),
        Err(_) => Err("no container")?,
    }
}

// Whether a reply begins so, and has this line or body in it.
fn begins(reply: &[u8], with: &[u8]) -> bool {
    reply.starts_with(with)
}

#[test]
fn two_passes_of_one_cell_make_a_put_each(rt: HostRuntime) -> Result<(), Fail> {
    let alloc = rt.alloc();
    let settings = small_settings()?;
    let users = standard_users(alloc)?;
    let Ok(realm) = Realm::new(alloc, &settings) else {
        return Err("no realm")?;
    };
    let (cell, mut first) = Turn::new(alloc, realm)?;
    let maker = cell.split(&mut first, 1);
    make(&rt, alloc, &settings, &cell, maker, "box")?;
    let maker = cell.split(&mut first, 1);
    make(&rt, alloc, &settings, &cell, maker, "bag")?;
    let one = cell.split(&mut first, 1);
    let other = cell.split(&mut first, 1);
    let (in_box, in_bag) = join(
        &rt,
        || replies_through(&rt, alloc, &settings, &users, &cell, one, PUT_IN_BOX),
        || replies_through(&rt, alloc, &settings, &users, &cell, other, PUT_IN_BAG),
    );
    assert!(rt; begins(in_box.as_slice(), b"HTTP/1.1 201 Created\r\n"));
    assert!(rt; begins(in_bag.as_slice(), b"HTTP/1.1 201 Created\r\n"));
    let third = cell.split(&mut first, 1);
    let both = replies_through(&rt, alloc, &settings, &users, &cell, third, GETS);
    assert!(rt; begins(both.as_slice(), b"HTTP/1.1 200 OK\r\n"));
    assert!(rt; both.as_slice().ends_with(b"\r\n\r\nabc"));
    Ok(())
}
