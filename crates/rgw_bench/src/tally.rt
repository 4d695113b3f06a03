//! The machine that is measured: the list of the passes that asked, in order.
ghost use Rattle.std.specs.Prelude.{◌≡◌, ◌≤◌, ◌^◌, IfOk, [], vec_len};

use std::alloc::{AllocError, Global};
use turn_cell::{DoorFault, Machine, Stopped};

// How many events a history has at most.
const FULL: u64 = 1 << 62;

#[derive(Drop)]
pub struct Tally {
    asked: Vec<u64>,
    ghost few: { vec_len asked ≤ 2 ^ 62 },
}

impl Tally {
    /// An empty list with room for so many entries.
    pub fn with_room(alloc: Global, room: usize) -> Result<Tally, AllocError>
        ensures { IfOk result (λ tally. tally.asked.items ≡ []) }
    {
        Ok(Tally {
            asked: Vec::with_capacity(alloc, room)?,
        })
    }
}

impl Machine for Tally {
    ghost use Rattle.std.specs.Prelude.{refl, length};

    type Op = ();

    // The event's number.
    type Answer = u64;

    // The number of its pass.
    type Actor = u64;

    type Event = u64;

    type Fixed = ();

    ghost fixed = { λ _. tt };

    ghost history = { λ tally. tally.asked.items };

    ghost pass = { λ actor. actor };

    ghost by = { λ e. e };

    ghost event = { λ actor _ _ _. actor };

    ghost lawful = { λ _ _. Unit {0} };

    ghost allowed = { λ _ _ _ _. Unit {0} };

    ghost tells = { λ _ _ answer _ log. answer ≡ length log };

    fn apply(
        &mut self,
        _alloc: Global,
        actor: &mut u64,
        op: (),
        _moment: u64,
    ) -> Result<u64, Stopped<()>> {
        let asked = self.asked.len() as u64;
        if asked == FULL {
            return Err(Stopped {
                fault: DoorFault::Worn,
                op: Some(op),
            });
        }
        match self.asked.push(*actor) {
            Ok(()) => Ok(asked + 1),
            Err(_) => Err(Stopped {
                fault: DoorFault::OutOfMemory,
                op: Some(op),
            }),
        }
    }

    ghost by_actor = { λ actor op moment answer. refl };

    ghost others = { λ fixed log between actor op none. ((λ _. tt), (λ _. tt)) };
}
