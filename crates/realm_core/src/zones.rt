//! The pools of all zones.
ghost use Rattle.std.specs.Prelude.{◌≡◌, IfOk, length, replicate};
ghost use Rattle.realm_core.specs.Answers.{AreReady, Changes};
ghost use Rattle.realm_model.specs.States.{State, number_next};
ghost use Rattle.zone_core.specs.Stands.{new_pool};

use object_pool::{OutOfMemory, Pool};
use object_words::Why;
use realm_model::{Op, Reply, Settings};
use std::alloc::Global;
use zone_core::perform;

/// A new pool for each zone.
pub(crate) fn new_zones(alloc: Global, settings: &Settings) -> Result<Vec<Pool>, OutOfMemory>
    ensures { IfOk result (λ zones. zones.items ≡ replicate settings.now.zones (new_pool settings.now)) }
{
    let mut zones = Vec::new(alloc);
    for zone in 0..settings.zones {
        zones.push(Pool::new(alloc, settings.frames, settings.frame)?)?;
    }
    Ok(zones)
}

/// One operation on the pool of its zone. A zone that the realm hasn't got is answered that nothing is there.
pub(crate) fn perform_in(
    alloc: Global,
    zones: &mut Vec<Pool>,
    settings: &Settings,
    number: u64,
    clock: u64,
    op: &Op,
) -> Result<Reply, OutOfMemory>
    requires ready { (st : State) × AreReady settings.now zones.old.items st × (number ≡ number_next st) }
    ensures changes { (st : State) → AreReady settings.now zones.old.items st → number ≡ number_next st → clock ≡ st.clock
        → Changes settings.now st op.now result zones.new.items }
    ensures length { length zones.new.items ≡ length zones.old.items }
{
    let most = usize::from(settings.zones);
    let zone = usize::from(op.zone());
    if zone == 0 || zone > most {
        return Ok(Reply::No(Why::Absent));
    }
    perform(alloc, &mut zones[zone - 1], settings, number, clock, op)
}
