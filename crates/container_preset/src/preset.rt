ghost use Rattle.std.specs.Prelude.{◌≡◌, ◌⊎◌, ◌+◌, ◌∷◌, ◌++◌, ◌^◌, [], None, Some, length, is_some, true, IfErr, IfOk, OnErr, OnOk};
ghost use Rattle.container_preset.specs.Presets.{Finds, HasMade, HasMadeSome, IsFresh, IsMadeBy, IsThereBy, MakesOne, Stops, event_by, make, made_row, new_row, number_if_absent, preset, row_now};
ghost use Rattle.object_words.specs.declared.bucket.Bucket.{Bucket as BucketOf};
ghost use Rattle.object_words.specs.Limits.{is_name};
ghost use Rattle.realm_door.specs.Steps.{Grows, MayStep};
ghost use Rattle.realm_model.specs.Doors.{actor_at};
ghost use Rattle.realm_model.specs.Histories.{Legal};
ghost use Rattle.realm_model.specs.Needs.{bucket_limit};
ghost use Rattle.realm_model.specs.Owns.{own_events};
ghost use Rattle.realm_model.specs.Settings.{IsSettings};
ghost use Rattle.realm_model.specs.declared.event.Reply.TheVariants.{Row};
ghost use Rattle.realm_model.specs.declared.op.Op.TheVariants.{BucketRead};
ghost use Rattle.turn_cell.specs.declared.machine.DoorFault.TheVariants.{Worn};

use object_words::{Bucket, BucketName, ShardCount, ShardKey};
use realm_door::{Answered, Door};
use realm_model::{Op, Reply, Settings};
use rgw_types::{Pairs, Text};
use std::alloc::{AllocError, Global};
use turn_cell::{DoorFault, Stopped};

/// Makes a container of this owner in zone 1, with the realm's number of shards, where there is none of the
/// name. The actor reads the row; where none is there it makes each shard by rising number, and then the
/// row. At `Ok` there is a row of the name. At `Err` the row was not made through this door, and what was
/// made of the shards stays. The door's actor made no event before.
pub fn preset_bucket<D: Door>(
    alloc: Global,
    settings: &Settings,
    door: &mut D,
    bucket: &BucketName,
    owner: &Text,
    moment: u64,
) -> Result<(), DoorFault>
    requires settings { D.settings door.old ≡ settings.now }
    requires fresh { D.tells → IsFresh settings.now (D.told door.old) }
    ensures made { OnOk result (D.tells →
        IsMadeBy settings.now bucket.now owner.now (own_events (D.told door.new).seen (actor_at (D.told door.new)))
        ⊎ IsThereBy bucket.now (own_events (D.told door.new).seen (actor_at (D.told door.new)))) }
    ensures stands { OnOk result (D.tells → is_some (row_now settings.now (D.told door.new).seen bucket.now) ≡ true) }
    ensures stopped { OnErr result (D.tells → Stops settings.now D.alone (D.told door.old) (D.told door.new) bucket.now moment) }

    // Where nobody else makes events.
    ensures events { OnOk result (D.tells → D.alone
        → row_now settings.now (D.told door.old).seen bucket.now ≡ None
        → (D.told door.new).seen ≡ (D.told door.old).seen
        ++ preset settings.now (actor_at (D.told door.old)) bucket.now owner.now (length (D.told door.old).seen + 1) moment) }
    ensures row { OnOk result (D.tells → D.alone
        → row_now settings.now (D.told door.old).seen bucket.now ≡ None
        → row_now settings.now (D.told door.new).seen bucket.now
        ≡ Some (made_row settings.now owner.now (length (D.told door.old).seen + 1) (length (D.told door.new).seen))) }
    ensures found { OnOk result (D.tells → D.alone → (row : BucketOf)
        → row_now settings.now (D.told door.old).seen bucket.now ≡ Some row
        → (D.told door.new).seen ≡ (D.told door.old).seen
        ++ event_by (actor_at (D.told door.old)) (BucketRead 1 bucket.now) moment (Row row) ∷ []) }

    ensures legal { D.tells → Legal settings.now (D.told door.new).seen }
    ensures grows { D.tells → Grows settings.now (D.told door.old) (D.told door.new) }
    ensures worn { IfErr result (λ f. D.tells → f ≡ Worn → length (D.found door.new) ≡ 2 ^ 62) }
    ensures settings { D.settings door.new ≡ D.settings door.old }
    ensures home { D.home door.new ≡ D.home door.old }
{
    match find_row(alloc, settings, door, bucket, moment)? {
        None => Ok(()),
        Some(id) => {
            make_container(alloc, settings, door, bucket, owner, id, moment)?;
            Ok(())
        }
    }
}

// Reads the row of a name: `None` where one is there, otherwise the number of the event that found none.
fn find_row<D: Door>(
    alloc: Global,
    settings: &Settings,
    door: &mut D,
    bucket: &BucketName,
    moment: u64,
) -> Result<Option<u64>, DoorFault>
    requires settings { D.settings door.old ≡ settings.now }
    requires fresh { D.tells → IsFresh settings.now (D.told door.old) }
    ensures finds { IfOk result (λ id. D.tells → Finds settings.now D.alone (D.told door.old) (D.told door.new) bucket.now moment id) }
    ensures stopped { OnErr result (D.tells → D.told door.new ≡ D.told door.old) }
    ensures worn { IfErr result (λ f. D.tells → f ≡ Worn → length (D.found door.new) ≡ 2 ^ 62) }
    ensures settings { D.settings door.new ≡ D.settings door.old }
    ensures home { D.home door.new ≡ D.home door.old }
{
    settings.has_zone_one();
    let Ok(name) = bucket.clone() else {
        return Err(DoorFault::OutOfMemory);
    };
    match door.step(alloc, Op::BucketRead { zone: 1, name }, moment) {
        Ok(answered) => {
            let id = number_if_absent(&answered);
            drop(answered);
            Ok(id)
        }
        Err(stopped) => Err(fault_of(stopped)),
    }
}

// The number of an event that was answered that nothing is there.
fn number_if_absent(answered: &Answered) -> Option<u64>
    ensures { result ≡ number_if_absent answered.now.reply answered.now.number }
{
    match &answered.reply {
        Reply::No(_) => Some(answered.number),
        _ => None,
    }
}

fn fault_of(stopped: Stopped<Op>) -> DoorFault
    ensures { result ≡ stopped.fault }
{
    let fault = stopped.fault;
    drop(stopped);
    fault
}

// Makes a container of which no row was found, by the event of this number.
fn make_container<D: Door>(
    alloc: Global,
    settings: &Settings,
    door: &mut D,
    bucket: &BucketName,
    owner: &Text,
    id: u64,
    moment: u64,
) -> Result<(), DoorFault>
    requires settings { D.settings door.old ≡ settings.now }
    requires maker { D.tells → HasMade settings.now D.alone (D.told door.old) (D.told door.old) bucket.now id moment 0 }
    ensures made { OnOk result (D.tells →
        IsMadeBy settings.now bucket.now owner.now (own_events (D.told door.new).seen (actor_at (D.told door.new)))) }
    ensures stands { OnOk result (D.tells → is_some (row_now settings.now (D.told door.new).seen bucket.now) ≡ true) }
    ensures stopped { OnErr result (D.tells → HasMadeSome settings.now D.alone (D.told door.old) (D.told door.new) bucket.now id moment) }
    ensures events { OnOk result (D.tells → D.alone
        → row_now settings.now (D.told door.old).seen bucket.now ≡ None
        → (D.told door.new).seen ≡ (D.told door.old).seen ++ make settings.now (actor_at (D.told door.old)) bucket.now owner.now id moment) }
    ensures row { OnOk result (D.tells → D.alone
        → row_now settings.now (D.told door.old).seen bucket.now ≡ None
        → row_now settings.now (D.told door.new).seen bucket.now
        ≡ Some (made_row settings.now owner.now id (length (D.told door.new).seen))) }
    ensures legal { D.tells → Legal settings.now (D.told door.new).seen }
    ensures grows { D.tells → Grows settings.now (D.told door.old) (D.told door.new) }
    ensures worn { IfErr result (λ f. D.tells → f ≡ Worn → length (D.found door.new) ≡ 2 ^ 62) }
    ensures settings { D.settings door.new ≡ D.settings door.old }
    ensures home { D.home door.new ≡ D.home door.old }
{
    let Ok(name) = bucket.clone() else {
        return Err(DoorFault::OutOfMemory);
    };
    let Ok(row) = new_row(alloc, settings, owner, id) else {
        return Err(DoorFault::OutOfMemory);
    };
    has_bounds(settings);
    has_name(bucket);
    make_shards(alloc, settings, door, bucket, id, moment)?;
    let swap = Op::BucketSwap {
        zone: 1,
        name,
        expected: 0,
        new: Some(row),
    };
    make_event(alloc, door, swap, moment)?;
    Ok(())
}

// The settings are within their bounds. It does nothing: it tells it to the proofs of its callers.
fn has_bounds(settings: &Settings)
    ensures { IsSettings settings.now }
{
    let _shards = settings.shards;
}

// The name is within the bounds of names, by its type. It does nothing: it tells it to the proofs of its callers.
fn has_name(bucket: &BucketName)
    ensures { is_name bucket_limit bucket.now ≡ true }
{
    let _text = bucket.as_text();
}

// Makes all shards.
fn make_shards<D: Door>(
    alloc: Global,
    settings: &Settings,
    door: &mut D,
    bucket: &BucketName,
    id: u64,
    moment: u64,
) -> Result<(), DoorFault>
    requires settings { D.settings door.old ≡ settings.now }
    requires maker { D.tells → HasMade settings.now D.alone (D.told door.old) (D.told door.old) bucket.now id moment 0 }
    ensures made { OnOk result (D.tells → HasMade settings.now D.alone (D.told door.old) (D.told door.new) bucket.now id moment settings.now.shards) }
    ensures stopped { OnErr result (D.tells → HasMadeSome settings.now D.alone (D.told door.old) (D.told door.new) bucket.now id moment) }
    ensures worn { IfErr result (λ f. D.tells → f ≡ Worn → length (D.found door.new) ≡ 2 ^ 62) }
    ensures settings { D.settings door.new ≡ D.settings door.old }
    ensures home { D.home door.new ≡ D.home door.old }
{
    settings.has_zone_one();
    for shard in 0..settings.shards {
        let key = ShardKey {
            container: id,
            instance: id,
            shard,
        };
        make_event(alloc, door, Op::ShardMake { zone: 1, key }, moment)?;
    }
    Ok(())
}

// Makes the event of an operation whose answer says nothing that is not known.
fn make_event<D: Door>(alloc: Global, door: &mut D, op: Op, moment: u64) -> Result<(), DoorFault>
    requires { D.tells → MayStep (D.settings door.old) (D.told door.old) op }
    ensures made { OnOk result (D.tells → MakesOne (D.settings door.old) D.alone (D.told door.old) (D.told door.new) op moment) }
    ensures stopped { OnErr result (D.tells → D.told door.new ≡ D.told door.old) }
    ensures worn { IfErr result (λ f. D.tells → f ≡ Worn → length (D.found door.new) ≡ 2 ^ 62) }
    ensures settings { D.settings door.new ≡ D.settings door.old }
    ensures home { D.home door.new ≡ D.home door.old }
{
    match door.step(alloc, op, moment) {
        Ok(answered) => {
            drop(answered);
            Ok(())
        }
        Err(stopped) => Err(fault_of(stopped)),
    }
}

// The row of a new container.
fn new_row(alloc: Global, settings: &Settings, owner: &Text, id: u64) -> Result<Bucket, AllocError>
    ensures { IfOk result (λ row. row ≡ new_row settings.now owner.now id) }
{
    let Some(shards) = ShardCount::new(settings.shards) else {
        unreachable!();
    };
    Ok(Bucket {
        id,
        owner: owner.clone()?,
        version: 0,
        shared: 0,
        number: 0,
        busy: None,
        instance: id,
        shards,
        meta: Pairs::new(alloc),
        readers: Text::new(alloc),
        writers: Text::new(alloc),
    })
}
