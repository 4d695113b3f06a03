// A machine of deposits, each with the balance that it left.
ghost use Rattle.std.specs.Prelude.{◌≡◌, ◌+◌, ◌≤◌, ◌^◌, vec_len, []};
ghost use Rattle.class_tests.specs.Deposits.{balance_after};

use std::alloc::Global;
use std::hint::spin_loop;
use turn_cell::{DoorFault, Machine, Stopped};

// How many events a history has at most.
const FULL: u64 = 1 << 62;

/// So many cents, or a call that finds no memory. It holds the value for so many turns of a spin.
#[derive(Clone, Copy, Debug, PartialEq, Eq)]
pub struct Deposit {
    pub cents: u64,
    pub starves: bool,
    pub spins: u32,
}

#[derive(Drop)]
pub struct Deposits {
    // How many events came before the log: deposits of nothing by pass 0.
    before: u64,
    // The pass, the cents and the balance of each deposit.
    log: Vec<(u64, u64, u64)>,
    balance: u64,
    ghost balanced: { balance ≡ balance_after 0 log.items },
    ghost few: { before + vec_len log ≤ 2 ^ 62 },
}

impl Deposits {
    pub fn after(alloc: Global, before: u64) -> Deposits
        requires { before ≤ 2 ^ 62 }
        ensures { (result.before ≡ before) × (result.log.items ≡ []) }
    {
        Deposits {
            before,
            log: Vec::new(alloc),
            balance: 0,
        }
    }
}

impl Machine for Deposits {
    ghost use Rattle.std.specs.Prelude.{refl, length};
    ghost use Rattle.class_tests.specs.Deposits.{IsBalanced, history_of};

    type Op = Deposit;

    // The balance and the event's number.
    type Answer = (u64, u64);

    type Actor = u64;

    type Event = (u64, u64, u64);

    type Fixed = ();

    ghost fixed = { λ _. tt };

    ghost history = { λ m. history_of m.before m.log.items };

    ghost pass = { λ actor. actor };

    ghost by = { λ e. e.0 };

    ghost event = { λ actor op moment answer. (actor, op.cents, answer.0) };

    ghost lawful = { λ _ log. IsBalanced 0 log };

    ghost allowed = { λ _ _ _ _. Unit {0} };

    ghost tells = { λ _ _ answer _ log. answer.1 ≡ length log };

    fn apply(
        &mut self,
        _alloc: Global,
        actor: &mut u64,
        op: Deposit,
        _moment: u64,
    ) -> Result<(u64, u64), Stopped<Deposit>> {
        spin(op.spins);
        let number = self.before + self.log.len() as u64;
        if number == FULL {
            return Err(Stopped {
                fault: DoorFault::Worn,
                op: Some(op),
            });
        }
        let balance = self.balance.wrapping_add(op.cents);
        if op.starves || self.log.push((*actor, op.cents, balance)).is_err() {
            return Err(Stopped {
                fault: DoorFault::OutOfMemory,
                op: Some(op),
            });
        }
        self.balance = balance;
        Ok((balance, number + 1))
    }

    ghost by_actor = { λ actor op moment answer. refl };

    ghost others = { λ fixed log between actor op none. ((λ _. tt), (λ _. tt)) };
}

fn spin(turns: u32) {
    for _ in 0..turns {
        spin_loop();
    }
}
