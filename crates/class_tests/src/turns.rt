//! One value that threads change in turns.
ghost use Rattle.std.specs.Prelude.{◌≡◌, ◌≤◌, ◌^◌, IfOk};

mod deposits;

use deposits::{Deposit, Deposits};
use std::alloc::Global;
use std::process::Abort;
use std::sync::Wait;
use std::sync::atomic::AtomicU64;
use std::sync::atomic::Ordering::SeqCst;
use std::test::Fail;
use std::thread::{Threads, join, yield_now};
use turn_cell::{DoorFault, Pass, Stopped, Turn};

// A cell of deposits after `before` events, and its first pass.
fn cell_after(alloc: Global, before: u64) -> Result<(Turn<Deposits>, Pass<Deposits>), Fail>
    requires { before ≤ 2 ^ 62 }
    ensures { IfOk result (λ r. (r.1.cell ≡ r.0) × (r.1.room ≡ 2 ^ 62)) }
{
    Ok(Turn::new(alloc, Deposits::after(alloc, before))?)
}

// One deposit through a pass, with the balance and the event's number.
fn deposit<R: Wait>(
    rt: &R,
    alloc: Global,
    cell: &Turn<Deposits>,
    pass: &mut Pass<Deposits>,
    op: Deposit,
) -> Result<(u64, u64), Stopped<Deposit>>
    requires { pass.old.cell ≡ cell.now }
    ensures { (pass.new.cell ≡ cell.now) × (pass.new.room ≡ pass.old.room) }
{
    let mut actor = pass.number();
    cell.step(rt, alloc, pass, &mut actor, op, 0)
}

// How many steps each of four threads makes.
const STEPS: u32 = 10_000;

// How long the value is held now and then, in turns of a spin: longer than a thread looks before it sleeps.
const HELD: u32 = 2_000;

// How long it is held in a thread's last step: until all others sleep, on a busy machine too.
const HELD_LAST: u32 = 1_000_000;

// The deposits of one of four threads, whose numbers rise. One in ten finds no memory, in the turns that
// end with this digit. One in ten holds the value, the last one too.
fn deposit_often<R: Wait + Abort>(
    rt: &R,
    alloc: Global,
    cell: &Turn<Deposits>,
    mut pass: Pass<Deposits>,
    cents: u64,
    starved_digit: u32,
) -> Pass<Deposits>
    requires { pass.cell ≡ cell.now }
    ensures { (result.cell ≡ cell.now) × (result.room ≡ pass.room) }
{
    let mut last = 0;
    for turn in 0..STEPS {
        let op = Deposit {
            cents,
            starves: turn % 10 == starved_digit,
            spins: spins_at(turn),
        };
        match deposit(rt, alloc, cell, &mut pass, op) {
            Ok((_balance, number)) => {
                assert!(rt; last < number, "{number} after {last}");
                last = number;
            }
            Err(stopped) => assert!(rt; op.starves && stopped == out_of_memory(op)),
        }
    }
    pass
}

fn spins_at(turn: u32) -> u32 {
    if turn == STEPS - 1 {
        HELD_LAST
    } else if turn % 10 == 9 {
        HELD
    } else {
        0
    }
}

fn out_of_memory(op: Deposit) -> Stopped<Deposit> {
    Stopped {
        fault: DoorFault::OutOfMemory,
        op: Some(op),
    }
}

// Two threads. The last step of the one stops, that of the other is a deposit.
fn two_threads<R: Threads + Wait + Abort + Sync>(
    rt: &R,
    alloc: Global,
    cell: &Turn<Deposits>,
    first: Pass<Deposits>,
    second: Pass<Deposits>,
) -> (Pass<Deposits>, Pass<Deposits>)
    requires { (first.cell ≡ cell.now) × (second.cell ≡ cell.now) }
    ensures { (result.0.cell ≡ cell.now) × (result.0.room ≡ first.room) }
{
    join(
        rt,
        || deposit_often(rt, alloc, cell, first, 1, 9),
        || deposit_often(rt, alloc, cell, second, 3, 0),
    )
}

fn four_threads<R: Threads + Wait + Abort + Sync>(rt: &R, alloc: Global) -> Result<(), Fail> {
    let (cell, mut first) = cell_after(alloc, 0)?;
    let second = cell.split(&mut first, 1000);
    let third = cell.split(&mut first, 1000);
    let fourth = cell.split(&mut first, 1000);
    let ((mut first, _second), _others) = join(
        rt,
        ||
            requires { (first.cell ≡ cell) × (second.cell ≡ cell) }
        { two_threads(rt, alloc, &cell, first, second) },
        ||
            requires { (third.cell ≡ cell) × (fourth.cell ≡ cell) }
        { two_threads(rt, alloc, &cell, third, fourth) },
    );
    assert!(rt; first.room() > 1);
    let mut fifth = cell.split(&mut first, 1);
    let op = Deposit {
        cents: 0,
        starves: false,
        spins: 0,
    };
    let seen = deposit(rt, alloc, &cell, &mut fifth, op).expect(rt, "memory");
    assert_eq!(rt; seen, (72_000, 36_001));
    Ok(())
}

// A step wakes one that sleeps, a step that stops too: else a thread would sleep for ever.
#[test]
fn a_fifth_pass_sees_the_steps_of_four_threads(rt: HostRuntime) -> Result<(), Fail> {
    let alloc = rt.alloc();
    four_threads(&rt, alloc)
}

// How often two threads meet.
const ROUNDS: u32 = 10_000;

// One of two threads, which meet before each step. How long the first holds the value differs from round
// to round.
fn deposit_in_rounds<R: Wait + Abort>(
    rt: &R,
    alloc: Global,
    cell: &Turn<Deposits>,
    mut pass: Pass<Deposits>,
    holds: bool,
    here: &AtomicU64,
    there: &AtomicU64,
)
    requires { pass.cell ≡ cell.now }
{
    for round in 0..ROUNDS {
        meet(rt, here, there, u64::from(round) + 1);
        let op = Deposit {
            cents: 1,
            starves: false,
            spins: if holds { round * 7 % 4_000 } else { 0 },
        };
        let made = deposit(rt, alloc, cell, &mut pass, op);
        assert!(rt; made.is_ok(), "round {round}");
    }
}

// Waits until the other is in this round too.
fn meet<R: Wait>(rt: &R, here: &AtomicU64, there: &AtomicU64, round: u64) {
    here.store(round, SeqCst);
    for _ in rt.forever() {
        if there.load(SeqCst) >= round {
            break;
        }
        yield_now();
    }
}

fn two_in_rounds<R: Threads + Wait + Abort + Sync>(rt: &R, alloc: Global) -> Result<(), Fail> {
    let (cell, mut first) = cell_after(alloc, 0)?;
    let second = cell.split(&mut first, 1000);
    let here = AtomicU64::new(0);
    let there = AtomicU64::new(0);
    join(
        rt,
        || deposit_in_rounds(rt, alloc, &cell, first, true, &here, &there),
        || deposit_in_rounds(rt, alloc, &cell, second, false, &there, &here),
    );
    Ok(())
}

// The value comes home at any moment before the other sleeps, and nobody makes a further step: where
// the other slept then, the two would never meet again.
#[test]
fn nobody_sleeps_while_the_value_is_at_home(rt: HostRuntime) -> Result<(), Fail> {
    let alloc = rt.alloc();
    two_in_rounds(&rt, alloc)
}

#[test]
fn a_split_gives_away_the_last_numbers(rt: HostRuntime) -> Result<(), Fail> {
    let (cell, mut first) = cell_after(rt.alloc(), 0)?;
    let mut second = cell.split(&mut first, 1000);
    let third = cell.split(&mut second, 999);
    let owned = [
        (first.number(), first.room()),
        (second.number(), second.room()),
        (third.number(), third.room()),
    ];
    assert!(rt;
        owned
            == [
                (1, 4611686018427386904),
                (4611686018427386905, 1),
                (4611686018427386906, 999)
            ]
    );
    Ok(())
}

// Five cents.
const PAID: Deposit = Deposit {
    cents: 5,
    starves: false,
    spins: 0,
};

#[test]
fn a_stopped_step_hands_its_operation_back_and_changes_nothing(
    rt: HostRuntime,
) -> Result<(), Fail> {
    let alloc = rt.alloc();
    let starved = Deposit {
        cents: 7,
        starves: true,
        spins: 0,
    };
    let (cell, mut pass) = cell_after(alloc, 0)?;
    assert!(rt; deposit(&rt, alloc, &cell, &mut pass, PAID) == Ok((5, 1)));
    assert!(rt; deposit(&rt, alloc, &cell, &mut pass, starved) == Err(out_of_memory(starved)));
    assert!(rt; deposit(&rt, alloc, &cell, &mut pass, PAID) == Ok((10, 2)));
    Ok(())
}

#[test]
fn the_last_number_is_the_last_event(rt: HostRuntime) -> Result<(), Fail> {
    let alloc = rt.alloc();
    let worn = Stopped {
        fault: DoorFault::Worn,
        op: Some(PAID),
    };
    let (cell, mut pass) = cell_after(alloc, (1 << 62) - 1)?;
    assert!(rt; deposit(&rt, alloc, &cell, &mut pass, PAID) == Ok((5, 4611686018427387904)));
    assert!(rt; deposit(&rt, alloc, &cell, &mut pass, PAID) == Err(worn));
    Ok(())
}
