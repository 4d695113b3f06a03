//! A PUT, a GET and a HEAD of a container, event by event, over a realm that is tried.
ghost use Rattle.std.specs.Prelude.{◌≡◌, IfOk};
ghost use Rattle.script_player.specs.Requests.{HasFewBytes};

use container_preset::preset_bucket;
use object_words::{BucketName, ObjectName};
use realm_model::Settings;
use realm_stage::RealmStage;
use rgw_types::{Bytes, Text};
use script_player::{Gone, Player};
use script_words::{ActorOutcome, ScriptBody, Verb};
use std::alloc::Global;
use std::test::Fail;
use swift_auth::Users;
use task_container::{ContainerOutcome, ContainerReply};
use task_words::{MapReply, Outcome};

const MOMENT: u64 = 1_700_000_000_000_000;

fn settings() -> Settings {
    let settings = Settings::new(
        1,
        4_194_304,
        4096,
        64,
        1,
        120_000_000,
        7_200_000_000,
        5_368_709_120,
        100_000,
    );
    match settings {
        Some(settings) => settings,
        None => unreachable!(),
    }
}

fn container(alloc: Global) -> Result<BucketName, Fail> {
    match BucketName::new(Text::from_str(alloc, "box")?) {
        Ok(name) => Ok(name),
        Err(_) => unreachable!(),
    }
}

fn object(alloc: Global) -> Result<ObjectName, Fail> {
    match ObjectName::new(Text::from_str(alloc, "k")?) {
        Ok(name) => Ok(name),
        Err(_) => unreachable!(),
    }
}

/// The users of a gateway to which none are given.
fn users(alloc: Global) -> Result<Users, Fail> {
    Ok(Users::standard(alloc).ok().ok_or("no users")?)
}

/// Whether the outcome is that an object of this digest was stored.
fn is_stored(outcome: Option<ActorOutcome<'_>>, digest: u128) -> bool {
    match outcome {
        Some(ActorOutcome::Request(Outcome::Done(MapReply::Stored { etag, .. }))) => {
            u128::from_be_bytes(*etag) == digest
        }
        _ => false,
    }
}

/// Whether the outcome is that the container has so many objects and bytes.
fn is_counted(outcome: Option<ActorOutcome<'_>>, count: u64, sum: u64) -> bool {
    match outcome {
        Some(
            ActorOutcome::Container(
                ContainerOutcome::Done(ContainerReply::Counted { objects, bytes, .. }),
            ),
        ) => *objects == count && *bytes == sum,
        _ => false,
    }
}

/// A realm in which the container was made.
fn realm(alloc: Global, settings: &Settings) -> Result<RealmStage, Fail>
    ensures { IfOk result (λ door. door.settings ≡ settings.now) }
{
    let mut door = RealmStage::new(alloc, settings)?;
    let owner = Text::from_str(alloc, "acme")?;
    preset_bucket(
        alloc,
        settings,
        &mut door,
        &container(alloc)?,
        &owner,
        MOMENT,
    )?;
    Ok(door)
}

/// To store `hello`.
fn put(alloc: Global) -> Result<Verb, Fail>
    ensures { IfOk result HasFewBytes }
{
    Ok(Verb::Put {
        container: container(alloc)?,
        name: object(alloc)?,
        body: ScriptBody::Word(Bytes::from_slice(alloc, b"hello")?),
    })
}

// The digest is what md5sum gives of `hello`.
#[test]
fn a_put_goes_event_by_event(rt: HostRuntime) -> Result<(), Fail> {
    let alloc = rt.alloc();
    let settings = settings();
    let mut door = realm(alloc, &settings)?;
    let made = door.events();
    let users = users(alloc)?;
    let mut writer = Player::new(alloc, &settings, users.first(), 1, put(alloc)?)?;
    door.act_as(2);
    assert_eq!(rt; writer.go(alloc, &mut door, MOMENT, 4)?, Gone::Short);
    assert_eq!(rt; door.events(), made + 4);
    assert!(rt; writer.outcome().is_none());
    assert_eq!(rt; writer.go(alloc, &mut door, MOMENT, 9)?, Gone::Ended);
    assert_eq!(rt; door.events(), made + 5);
    assert!(rt; is_stored(writer.outcome(), 0x5d41_402a_bc4b_2a76_b971_9d91_1017_c592));
    Ok(())
}

#[test]
fn a_get_and_a_head_show_what_was_put(rt: HostRuntime) -> Result<(), Fail> {
    let alloc = rt.alloc();
    let settings = settings();
    let mut door = realm(alloc, &settings)?;
    let users = users(alloc)?;
    let mut writer = Player::new(alloc, &settings, users.first(), 1, put(alloc)?)?;
    door.act_as(2);
    let _ended = writer.go(alloc, &mut door, MOMENT, 9)?;

    let get = Verb::Get {
        container: container(alloc)?,
        name: object(alloc)?,
    };
    let mut reader = Player::new(alloc, &settings, users.first(), 1, get)?;
    door.act_as(3);
    assert_eq!(rt; reader.go(alloc, &mut door, MOMENT, 1)?, Gone::Short);
    assert!(rt; reader.shown().is_empty());
    assert_eq!(rt; reader.go(alloc, &mut door, MOMENT, 9)?, Gone::Ended);
    assert!(rt; reader.shown() == b"hello".as_slice());

    let stat = Verb::Stat {
        container: container(alloc)?,
    };
    let mut counter = Player::new(alloc, &settings, users.first(), 1, stat)?;
    door.act_as(4);
    assert_eq!(rt; counter.go(alloc, &mut door, MOMENT, 2)?, Gone::Ended);
    assert!(rt; is_counted(counter.outcome(), 1, 5));
    Ok(())
}
