//! The one history of a realm, which only grows: at run time a count, in contracts the list of its events.
#![tactic(auto)]

ghost use Rattle.std.specs.Prelude.{◌≡◌, ◌+◌, ◌<◌, ◌^◌, ◌++◌, ◌∷◌, [], length, nat_eq, IfOk};

use atomic_table::{Play, Seat, Table, TableRule};
use realm_model::Event;
pub use std::alloc::AllocError as OutOfMemory;
use std::alloc::Global;
use std::collections::LinkedList;
use std::marker::{Brand, Model, PhantomData};

/// Which event is noted. It has no call: contracts see one event in it, which the proof of a caller
/// picks.
pub trait Noted {
    ghost use Rattle.realm_model.specs.declared.event.Event.{Event};

    ghost event: { Event };
}

impl Noted for Brand {
    ghost use Rattle.realm_model.specs.declared.op.Op.TheVariants.{TailRead};
    ghost use Rattle.realm_model.specs.declared.event.Reply.TheVariants.{Done};

    ghost event = { record { pass = 0; count = 0; op = TailRead 0 0 0 0 0; moment = 0; reply = Done } };
}

// The events that the one seat has noted. No value of it is made.
type Events = LinkedList<Event>;

// The one word is the number of the events.
struct Counts;

impl TableRule<(), Events, ()> for Counts {
    ghost use Rattle.event_scroll.specs.Counting.{IsCounted};

    ghost holds = { λ _ state. IsCounted state };

    ghost first = { λ _. [] };
}

// The step that notes one event.
struct Note<B> {
    of: PhantomData<B>,
}

impl<B: Noted> Play<(), Events> for Note<B> {
    ghost then = { λ state before found after. after.0 ≡ before.0 ++ B.event ∷ [] };
}

/// A list of events, to which events are added at its end and from which none is taken.
#[derive(Drop)]
pub struct Scroll {
    count: u64,
    table: Table<(), Events, (), Counts, Global>,
    seat: Seat<(), Events>,
}

impl Model for Scroll {
    ghost use Rattle.std.specs.Prelude.{◌≡◌, List, length};
    ghost use Rattle.realm_model.specs.declared.event.Event.{Event};

    ghost Value = { List Event };

    ghost view = { λ scroll. scroll.seat.me.0 };

    ghost invariant = { λ scroll. (scroll.count ≡ length scroll.seat.me.0) × (scroll.seat.table_id ≡ scroll.table.shared.table_id)
        × (scroll.table.shared.table_id.words ≡ 1) × (scroll.seat.id ≡ 0) };
}

impl Scroll {
    /// A scroll without events. It fails only for want of memory.
    pub fn new(alloc: Global) -> Result<Scroll, OutOfMemory>
        ensures { IfOk result (λ scroll. scroll ≡ []) }
    {
        let (table, seat) = Table::of_words(alloc, &[0], &())?;
        Ok(Scroll {
            count: 0,
            table,
            seat,
        })
    }

    /// How many events were noted.
    pub fn len(&self) -> u64
        ensures { result ≡ length self.now }
    {
        self.count
    }

    /// Whether no event was noted.
    pub fn is_empty(&self) -> bool
        ensures { result ≡ nat_eq (length self.now) 0 }
    {
        self.count == 0
    }

    /// Notes the event that the caller's proof picks. There were fewer than 2^62. Takes no memory.
    pub fn note<B: Noted>(&mut self)
        requires { length self.old < 2 ^ 62 }
        ensures { self.new ≡ self.old ++ B.event ∷ [] }
    {
        let table = &self.table;
        let _found = table.shared.fetch_add::<Note<B>>(&mut self.seat, 0, 1);
        self.count += 1;
    }
}
