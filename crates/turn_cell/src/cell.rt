//! The cell, and what threads do with it.
ghost use Rattle.std.specs.Prelude.{◌≡◌, ◌+◌, ◌-◌, ◌<◌, ◌≤◌, ◌^◌, ◌↔◌, ◌++◌, [], ◌∷◌, length, Some, IfOk, OnOk, IfErr, OnErr, IfSome, IfNone};
ghost use Rattle.std.specs.Bool.{OnTrue, OnFalse};
ghost use Rattle.turn_cell.specs.declared.machine.DoorFault.TheVariants.{Worn};
ghost use Rattle.turn_cell.specs.Histories.{NoneBy, NoneFrom, numbers_of};
ghost use Rattle.turn_cell.specs.Steps.{IsFound};
ghost use Rattle.turn_cell.specs.Rule.{resting};
ghost use Rattle.turn_cell.specs.Plays.{HasTaken, IsChanged, IsUnchanged};

use crate::knowledge::{Knowledge, Seat};
use crate::machine::{Machine, OutOfMemory, Stopped};
use crate::pass::Pass;
use crate::rule::{Cut, GiveNext, GiveSame, OneHistory, Share, Take};
use crate::sleepers::Sleepers;
use atomic_table::{Refused, Table};
use std::alloc::{AllocError, Global};
use std::hint::spin_loop;
use std::marker::{Brand, Model};
use std::snapshot::Snapshot;
use std::sync::Wait;

/// How often a thread tries to take the value before it sleeps.
const TRIES: u32 = 8;

/// How often it looks before each try.
const LOOKS: u32 = 100;

/// How long it keeps away before it looks, in turns of a spin. The thread that has the value can
/// meanwhile make more steps, and the cache lines do not go to and fro.
const REST: u32 = 32;

/// One value that threads change in turns. Contracts see which cell it is, and what no event changes.
#[derive(Drop)]
pub struct Turn<M: Machine> {
    // Its word is twice the number of events since the cell was made, and one more while the value is
    // out with a pass. Its slot has the value.
    table: Table<M, Knowledge<M::Event, M::Fixed>, Snapshot<M>, OneHistory<M>, Global>,
    sleepers: Sleepers,
}

impl<M: Machine> Model for Turn<M> {
    ghost use Rattle.std.specs.Prelude.{◌≡◌};
    ghost use Rattle.turn_cell.specs.Views.{CellView};

    ghost Value = { CellView M.Fixed };

    ghost view = { λ t. record {
      id = t.table.shared.table_id;
      fixed = M.fixed t.table.shared.key.value;
    } };

    ghost invariant = { λ t.
        (t.table.shared.table_id.words ≡ 1) × (t.table.shared.table_id.slots ≡ 1) };
}

impl<M: Machine + Drop> Turn<M> {
    /// A cell with this value at home, and its first pass. The history so far is lawful and has no
    /// event of a pass, whose numbers begin with 1. At `Err` the value is dropped.
    pub fn new(alloc: Global, state: M) -> Result<(Turn<M>, Pass<M>), OutOfMemory>
        requires legal { M.lawful (M.fixed state) (M.history state) }
        requires unnumbered { NoneFrom M.by 1 (M.history state) }
        ensures cell { IfOk result (λ r. r.0.fixed ≡ M.fixed state) }
        ensures pass { IfOk result (λ r. r.1 ≡ record {
          cell = r.0;
          number = 1;
          room = 2 ^ 62;
          seen = M.history state;
          found = M.history state;
        }) }

        // It has made no event.
        ensures fresh { IfOk result (λ r. NoneBy M.by r.1.number r.1.seen) }
        ensures mine { IfOk result (λ r. numbers_of M.by r.1.number r.1.seen ≡ []) }
    {
        let about = Snapshot::of(&state);
        let mut slots = Vec::new(alloc);
        slots.push(state)?;
        match Table::new(alloc, &[0], slots, &about) {
            Ok((table, seat)) => Ok((
                Turn {
                    table,
                    sleepers: Sleepers::new(),
                },
                Pass {
                    number: 1,
                    room: 1 << 62,
                    seat,
                    expected: 0,
                },
            )),
            Err(Refused { slots: _ }) => Err(AllocError),
        }
    }
}

impl<M: Machine> Turn<M> {
    /// Gives the last `share` numbers of a pass to a new pass, which has seen and found what the first
    /// has. The first keeps at least its own number.
    pub fn split(&self, pass: &mut Pass<M>, share: u64) -> Pass<M>
        requires pass { pass.old.cell ≡ self.now }
        requires share { (1 ≤ share) × (share < pass.old.room) }
        ensures left { pass.new ≡ record pass.old { room = pass.old.room - share } }
        ensures right { result ≡ record pass.old {
          number = pass.old.number + (pass.old.room - share);
          room = share;
        } }

        // The new pass has made no event, and what it has seen is lawful.
        ensures fresh { NoneBy M.by result.number result.seen }
        ensures mine { numbers_of M.by result.number result.seen ≡ [] }
        ensures legal { M.lawful self.now.fixed result.seen }
    {
        let seat = self.cut::<Brand>(&mut pass.seat, share);
        pass.room -= share;
        Pass {
            number: pass.number + pass.room,
            room: share,
            seat,
            expected: pass.expected,
        }
    }

    /// Waits for the turn, and does one operation of an actor of this pass at a moment.
    ///
    /// It finds the cell's history, which begins with all that the pass has seen and goes on with events
    /// of others. At `Ok` it made exactly one event, right after what it found. At `Err` it made none:
    /// the value was put back unchanged, the operation comes back, and the actor is as it was, the pass
    /// too, but for what it found. `Worn` is said where that has 2^62 events.
    pub fn step<R: Wait>(
        &self,
        rt: &R,
        alloc: Global,
        pass: &mut Pass<M>,
        actor: &mut M::Actor,
        op: M::Op,
        moment: u64,
    ) -> Result<M::Answer, Stopped<M::Op>>
        requires pass { pass.old.cell ≡ self.now }
        requires actor { M.pass actor.old ≡ pass.old.number }
        requires allowed { M.allowed self.now.fixed pass.old.seen actor.old op }
        ensures pass { pass.new ≡ record pass.old { seen = pass.new.seen; found = pass.new.found } }
        ensures actor { M.pass actor.new ≡ M.pass actor.old }
        ensures found { IsFound M.by M.lawful pass.old pass.new.found }
        ensures legal { M.lawful self.now.fixed pass.new.seen }

        // The history that the pass has seen then ends with the event, whose number is its length.
        ensures made { IfOk result (λ answer.
            pass.new.seen ≡ pass.new.found ++ M.event actor.old op moment answer ∷ []) }
        ensures mine { OnOk result (
            numbers_of M.by pass.old.number pass.new.seen
            ≡ numbers_of M.by pass.old.number pass.old.seen ++ length pass.new.seen ∷ []) }
        ensures number { OnOk result (
            (length pass.old.seen < length pass.new.seen) × (length pass.new.seen ≤ 2 ^ 62)) }
        ensures tells { IfOk result (λ answer.
            M.tells actor.old op answer actor.new pass.new.seen) }

        ensures stopped { OnErr result (
            (pass.new ≡ record pass.old { found = pass.new.found }) × (actor.new ≡ actor.old)) }
        ensures handed_back { IfErr result (λ s. s.op ≡ Some op) }
        ensures worn { IfErr result (λ s. (s.fault ≡ Worn) ↔ (length pass.new.found ≡ 2 ^ 62)) }
    {
        let number = self.take(rt, &mut pass.seat, pass.expected);
        let state = pass.seat.slot_mut(&self.table.shared, 0);
        match state.apply(alloc, actor, op, moment) {
            Ok(answer) => {
                self.give_next(&mut pass.seat);
                pass.expected = number.wrapping_add(2);
                Ok(answer)
            }
            Err(stopped) => {
                self.give_same(&mut pass.seat);
                pass.expected = number;
                Err(stopped)
            }
        }
    }
}

// The kinds of atomic step: the value is taken, given back with the next number or unchanged, and a
// pass is split.
impl<M: Machine> Turn<M> {
    // Takes the value if the word has this number, which says that the value is at home.
    fn try_take(&self, seat: &mut Seat<M>, number: u64) -> bool
        requires { seat.old.table_id ≡ self.now.id }
        ensures same { (seat.new.table_id ≡ seat.old.table_id) × (seat.new.id ≡ seat.old.id) }
        ensures taken { OnTrue result (
            HasTaken M.history M.fixed M.by M.lawful seat.old.me seat.new.me) }
        ensures missed { OnFalse result (seat.new.me ≡ seat.old.me) }
    {
        if number % 2 == 1 {
            return false;
        }
        let shared = &self.table.shared;
        let found = shared.compare_exchange::<Take<M>>(seat, 0, number, number + 1);
        found == number
    }

    // Gives the value back, which has one event more.
    fn give_next(&self, seat: &mut Seat<M>)
        requires cell { seat.old.table_id ≡ self.now.id }
        requires changed { IsChanged M.history M.fixed M.by M.lawful seat.old.me }
        ensures same { seat.new.table_id ≡ seat.old.table_id }
        ensures seen { (m : M) → seat.old.me.1 ≡ (0, m) ∷ [] → seat.new.me ≡ (
          resting seat.old.me.0.number seat.old.me.0.room
              (M.history m) seat.old.me.0.found seat.old.me.0.fixed,
          [],
        ) }
    {
        self.table.shared.fetch_add::<GiveNext<M>>(seat, 0, 1);
        self.sleepers.wake_one();
    }

    // Gives the value back unchanged.
    fn give_same(&self, seat: &mut Seat<M>)
        requires cell { seat.old.table_id ≡ self.now.id }
        requires unchanged { IsUnchanged M.history M.fixed M.lawful seat.old.me }
        ensures same { seat.new.table_id ≡ seat.old.table_id }
        ensures seen { seat.new.me ≡ (
          resting seat.old.me.0.number seat.old.me.0.room
              seat.old.me.0.seen seat.old.me.0.found seat.old.me.0.fixed,
          [],
        ) }
    {
        self.table.shared.fetch_sub::<GiveSame<M>>(seat, 0, 1);
        self.sleepers.wake_one();
    }

    // Cuts the numbers of a pass in two.
    fn cut<B: Share>(&self, seat: &mut Seat<M>, share: u64) -> Seat<M>
        requires cell { seat.old.table_id ≡ self.now.id }
        requires share { (B.share ≡ share) × (0 < share) × (share < seat.old.me.0.room) }
        ensures left { (seat.new.table_id ≡ seat.old.table_id) × (seat.new.me ≡ (
          resting seat.old.me.0.number (seat.old.me.0.room - share)
              seat.old.me.0.seen seat.old.me.0.found seat.old.me.0.fixed,
          seat.old.me.1,
        )) }
        ensures right { (result.table_id ≡ seat.old.table_id) × (result.me ≡ (
          resting (seat.old.me.0.number + (seat.old.me.0.room - share)) share
              seat.old.me.0.seen seat.old.me.0.found seat.old.me.0.fixed,
          [],
        )) }
    {
        self.table.shared.split_seat::<Cut<B>>(seat)
    }
}

// Waiting, which changes nothing that a pass knows.
impl<M: Machine> Turn<M> {
    // Takes the value once it is at home, and answers the number that the word had then.
    fn take<R: Wait>(&self, rt: &R, seat: &mut Seat<M>, expected: u64) -> u64
        requires { seat.old.table_id ≡ self.now.id }
        ensures same { seat.new.table_id ≡ seat.old.table_id }
        ensures taken { HasTaken M.history M.fixed M.by M.lawful seat.old.me seat.new.me }
    {
        if self.try_take(seat, expected) {
            expected
        } else {
            self.wait_and_take(rt, seat)
        }
    }

    #[cold]
    #[inline(never)]
    fn wait_and_take<R: Wait>(&self, rt: &R, seat: &mut Seat<M>) -> u64
        requires { seat.old.table_id ≡ self.now.id }
        ensures same { seat.new.table_id ≡ seat.old.table_id }
        ensures taken { HasTaken M.history M.fixed M.by M.lawful seat.old.me seat.new.me }
    {
        let mut has_announced = false;
        for _ in rt.forever() {
            if let Some(number) = self.take_soon(seat) {
                if has_announced {
                    self.sleepers.ask_for_wake();
                }
                return number;
            }
            let key = self.sleepers.announce();
            has_announced = true;
            if self.table.shared.peek(0) % 2 == 1 {
                key.wait(rt);
            }
        }
        unreachable!()
    }

    // Takes the value if it can be had in a few tries, and answers the number that the word had then.
    fn take_soon(&self, seat: &mut Seat<M>) -> Option<u64>
        requires { seat.old.table_id ≡ self.now.id }
        ensures same { (seat.new.table_id ≡ seat.old.table_id) × (seat.new.id ≡ seat.old.id) }
        ensures taken { IfSome result (λ _. HasTaken M.history M.fixed M.by M.lawful seat.old.me seat.new.me) }
        ensures missed { IfNone result (seat.new.me ≡ seat.old.me) }
    {
        for _ in 0..TRIES {
            rest();
            let number = self.look();
            if self.try_take(seat, number) {
                return Some(number);
            }
        }
        None
    }

    // The number of the word, once the value is at home, or after some looks.
    fn look(&self) -> u64 {
        for _ in 0..LOOKS {
            let number = self.table.shared.peek(0);
            if number % 2 == 0 {
                return number;
            }
            spin_loop();
        }
        self.table.shared.peek(0)
    }
}

// Keeps away from the cell for a moment.
fn rest() {
    for _ in 0..REST {
        spin_loop();
    }
}
