//! What serves the requests of a connection together.
ghost use Rattle.std.specs.Prelude.{◌≡◌, length};
ghost use Rattle.call_service.specs.Connections.{names};

use gw_io::{Clock, Ends, Sink, Source};
use http_intake::Intake;
use realm_door::Door;

/// What the requests of a connection are served with: the door through which events are made, the clock that tells
/// their moments, what was read of the input and not yet used, both ends, a buffer for pieces of bodies, and one for
/// the texts of replies.
#[derive(Drop)]
pub struct Connection<'c, D, C, S, K> {
    pub door: &'c mut D,
    pub clock: &'c mut C,
    pub intake: &'c mut Intake,
    pub source: &'c mut S,
    pub sink: &'c mut K,
    pub buffer: &'c mut [u8],
    pub out: &'c mut Vec<u8>,
}

impl<'c, D, C, S, K> Connection<'c, D, C, S, K> {
    /// All of them together; each is given back as it stands when the connection goes.
    pub fn new(
        door: &'c mut D,
        clock: &'c mut C,
        intake: &'c mut Intake,
        source: &'c mut S,
        sink: &'c mut K,
        buffer: &'c mut [u8],
        out: &'c mut Vec<u8>,
    ) -> Connection<'c, D, C, S, K>
        ensures door { (result.door.now ≡ door.entry.now) × (result.door.ghost_name ≡ door.entry.ghost_name) }
        ensures clock { (result.clock.now ≡ clock.entry.now) × (result.clock.ghost_name ≡ clock.entry.ghost_name) }
        ensures intake { (result.intake.now ≡ intake.entry.now) × (result.intake.ghost_name ≡ intake.entry.ghost_name) }
        ensures source { (result.source.now ≡ source.entry.now) × (result.source.ghost_name ≡ source.entry.ghost_name) }
        ensures sink { (result.sink.now ≡ sink.entry.now) × (result.sink.ghost_name ≡ sink.entry.ghost_name) }
        ensures buffer { (result.buffer.now ≡ buffer.entry.now) × (result.buffer.ghost_name ≡ buffer.entry.ghost_name) }
        ensures out { (result.out.now ≡ out.entry.now) × (result.out.ghost_name ≡ out.entry.ghost_name) }
    {
        Connection {
            door,
            clock,
            intake,
            source,
            sink,
            buffer,
            out,
        }
    }
}

/// What contracts see of a connection.
pub trait Connected {
    ghost use Rattle.std.specs.Prelude.{List};
    ghost use Rattle.realm_model.specs.declared.event.Event.{Event};
    ghost use Rattle.call_service.specs.Serving.{Side, Around};

    /// What its door tells, its intake, and its ends.
    ghost side: { Self → Side };

    /// What stands around a call that serves a request.
    ghost around: { Self → Around };

    /// The history that the door's last step found.
    ghost found: { Self → List Event };
}

impl<'c, D: Door, C: Clock, S: Source, K: Sink> Connected for Connection<'c, D, C, S, K> {
    ghost use Rattle.call_service.specs.Serving.{side, around};

    ghost side = { λ c. side (D.told c.door.now) c.intake.now (⟦<(S, K, C) as Ends>⟧.ends (c.source.now, c.sink.now, c.clock.now)) };

    ghost around = { λ c. around
        (⟦<(S, K, C) as Ends>⟧.ends (c.source.now, c.sink.now, c.clock.now))
        (D.settings c.door.now) (D.home c.door.now) (length c.buffer.now)
        (names c.door.ghost_name c.clock.ghost_name c.intake.ghost_name c.source.ghost_name c.sink.ghost_name c.buffer.ghost_name c.out.ghost_name) };

    ghost found = { λ c. D.found c.door.now };
}
