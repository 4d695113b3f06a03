//! What a cell holds, and why a step stops.
ghost use Rattle.std.specs.Prelude.{◌≡◌, ℕ, ◌^◌, ◌<◌, ◌↔◌, ◌++◌, ◌∷◌, [], List, length, IfOk, OnOk, IfErr, OnErr, Some};

use std::alloc::{AllocError, Global};
use std::error::Error;
use std::fmt;

/// Memory ran out.
pub type OutOfMemory = AllocError;

/// Why a step made no event.
#[derive(Clone, Copy, Debug, PartialEq, Eq)]
pub enum DoorFault {
    /// Memory ran out.
    OutOfMemory,
    /// The history has 2^62 events, and takes no more.
    Worn,
}

impl fmt::Display for DoorFault {
    ghost use Rattle.turn_cell.specs.Faults.{text_of};

    ghost output = { λ fault. Some (text_of fault) };

    fn fmt<W: fmt::Write>(&self, f: &mut fmt::Formatter<W>) -> fmt::Result {
        f.write_str(match self {
            DoorFault::OutOfMemory => "out of memory",
            DoorFault::Worn => "the history is full",
        })
    }
}

impl Error for DoorFault {}

/// A step that made no event, and the operation that was not done.
#[derive(Debug, PartialEq, Eq, Drop)]
pub struct Stopped<O> {
    pub fault: DoorFault,
    /// `Some` where the fault is `OutOfMemory` or `Worn`.
    pub op: Option<O>,
}

/// A value that changes by one event at a time. Contracts see it as the history of its events, the
/// first one first, with a part that no event changes.
pub trait Machine {
    ghost use Rattle.turn_cell.specs.Histories.{NoneBy};
    ghost use Rattle.turn_cell.specs.declared.machine.DoorFault.TheVariants.{Worn};

    /// What is asked of the value.
    type Op: Drop;

    /// What an operation is answered.
    type Answer: Drop;

    /// Who asks.
    type Actor;

    /// What stands in the history. No value of it is made.
    type Event;

    /// The part that no event changes. No value of it is made.
    type Fixed;

    ghost fixed: { Self → Self.Fixed };

    ghost history: { Self → List Self.Event };

    /// The number of the pass through which an actor asks.
    ghost pass: { Self.Actor → ℕ };

    /// The number of the pass that an event is by. Events that came before any pass have number 0.
    ghost by: { Self.Event → ℕ };

    /// The event of an actor's operation at a moment, with its answer.
    ghost event: { Self.Actor → Self.Op → ℕ → Self.Answer → Self.Event };

    /// Whether each event of a history was allowed and has the answer that the events before it give.
    ghost lawful: { Self.Fixed → List Self.Event → Type 0 };

    /// Whether an operation is allowed to an actor after a history.
    ghost allowed: { Self.Fixed → List Self.Event → Self.Actor → Self.Op → Type 0 };

    /// What an answer says beside its event, of the actor before, the operation, the answer, the actor
    /// after, and the history that the event ends.
    ghost tells: { Self.Actor → Self.Op → Self.Answer → Self.Actor → List Self.Event → Type 0 };

    /// Does one operation, which adds one event. Where it stops, it changes nothing and hands the
    /// operation back.
    fn apply(
        &mut self,
        alloc: Global,
        actor: &mut Self::Actor,
        op: Self::Op,
        moment: u64,
    ) -> Result<Self::Answer, Stopped<Self::Op>>
        ensures made { IfOk result (λ answer.
            history self.new ≡ history self.old ++ event actor.old op moment answer ∷ []) }
        ensures legal { OnOk result (
            lawful (fixed self.old) (history self.old)
            → allowed (fixed self.old) (history self.old) actor.old op
            → lawful (fixed self.old) (history self.new)) }
        ensures tells { IfOk result (λ answer. tells actor.old op answer actor.new (history self.new)) }
        ensures room { OnOk result (length (history self.old) < 2 ^ 62) }

        ensures stopped { OnErr result (
            (history self.new ≡ history self.old) × (actor.new ≡ actor.old)) }
        ensures handed_back { IfErr result (λ s. s.op ≡ Some op) }
        ensures worn { IfErr result (λ s.
            (s.fault ≡ Worn) ↔ (length (history self.old) ≡ 2 ^ 62)) }

        ensures fixed { fixed self.new ≡ fixed self.old }
        ensures pass { pass actor.new ≡ pass actor.old };

    /// An event is by its actor's pass.
    ghost by_actor: { (actor : Self.Actor) (op : Self.Op) (moment : ℕ) (answer : Self.Answer)
        → by (event actor op moment answer) ≡ pass actor };

    /// Events of other passes never change what is allowed.
    ghost others: { (fixed : Self.Fixed) (log between : List Self.Event) (actor : Self.Actor) (op : Self.Op)
        → NoneBy by (pass actor) between
        → allowed fixed (log ++ between) actor op ↔ allowed fixed log actor op };
}
