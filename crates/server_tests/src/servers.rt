// Servers over a list of connections. A gate that gives up tells of a server that does not what it is to do, in
// place of a test that has no end.
use crate::fixtures::{
    EARLY, GET, LATE, LOOKS, PUT, PUT_THEN_GET, SHOWN, STORED, STORED_AND_SHOWN, STORED_LATER,
    SharedClock, has_output, net_of, new_output, plan, small_settings, standard_users,
};
use gw_io::StepClock;
use net_io::{Gate, NoPause, OpenGate};
use rgw_server::{ServeEnd, serve};
use std::sync::atomic::Ordering::SeqCst;
use std::sync::atomic::{AtomicBool, AtomicU64};
use std::test::Fail;
use std::thread::yield_now;

/// Waits until the flag is up; whether it came up in time.
fn is_raised(flag: &AtomicBool) -> bool {
    for _ in 0..LOOKS {
        if flag.load(SeqCst) {
            return true;
        }
        yield_now();
    }
    false
}

/// Waits until there were so many; whether they came in time.
fn has_come(count: &AtomicU64, least: u64) -> bool {
    for _ in 0..LOOKS {
        if count.load(SeqCst) >= least {
            return true;
        }
        yield_now();
    }
    false
}

// Holds connection 1 until connection 2 has left.
#[derive(Drop)]
struct FirstWaits {
    second_left: AtomicBool,
    gave_up: AtomicBool,
}

impl Gate for FirstWaits {
    fn enter(&self, number: u64) {
        if number == 1 && !is_raised(&self.second_left) {
            self.gave_up.store(true, SeqCst);
        }
    }

    fn leave(&self, number: u64) {
        if number == 2 {
            self.second_left.store(true, SeqCst);
        }
    }
}

// A server of one worker could not let connection 2 by.
#[test]
fn two_connections_are_served_at_once(rt: HostRuntime) -> Result<(), Fail> {
    let alloc = rt.alloc();
    let (first, second) = (new_output(alloc)?, new_output(alloc)?);
    let mut net = net_of(rt, alloc, [(PUT_THEN_GET, &first), (PUT_THEN_GET, &second)])?;
    let mut clock = StepClock::new(EARLY, 0);
    let gate = FirstWaits {
        second_left: AtomicBool::new(false),
        gave_up: AtomicBool::new(false),
    };
    let settings = small_settings()?;
    let users = standard_users(alloc)?;
    let plan = plan(alloc, 2, Some(2))?;
    let end = serve(
        &rt, alloc, &settings, &users, &plan, &mut clock, &mut net, &gate, &NoPause,
    );
    assert_eq!(rt; end, ServeEnd::Ended);
    assert!(rt; !gate.gave_up.load(SeqCst));
    assert!(rt; has_output(&rt, &first, STORED_AND_SHOWN));
    assert!(rt; has_output(&rt, &second, STORED_AND_SHOWN));
    Ok(())
}

// Holds connection 2 until connection 1 is served, and then connection 1 until connection 2 was let in, so that
// another worker serves it.
#[derive(Drop)]
struct OneThenOther {
    first_served: AtomicBool,
    second_in: AtomicBool,
    gave_up: AtomicBool,
}

impl Gate for OneThenOther {
    fn enter(&self, number: u64) {
        if number == 2 {
            if !is_raised(&self.first_served) {
                self.gave_up.store(true, SeqCst);
            }
            self.second_in.store(true, SeqCst);
        }
    }

    fn leave(&self, number: u64) {
        if number == 1 {
            self.first_served.store(true, SeqCst);
            if !is_raised(&self.second_in) {
                self.gave_up.store(true, SeqCst);
            }
        }
    }
}

// With a realm for each worker, or for each connection, the GET would be told that there is no such object.
#[test]
fn one_realm_for_all_workers(rt: HostRuntime) -> Result<(), Fail> {
    let alloc = rt.alloc();
    let (first, second) = (new_output(alloc)?, new_output(alloc)?);
    let mut net = net_of(rt, alloc, [(PUT, &first), (GET, &second)])?;
    let mut clock = StepClock::new(EARLY, 0);
    let gate = OneThenOther {
        first_served: AtomicBool::new(false),
        second_in: AtomicBool::new(false),
        gave_up: AtomicBool::new(false),
    };
    let settings = small_settings()?;
    let users = standard_users(alloc)?;
    let plan = plan(alloc, 2, Some(2))?;
    let end = serve(
        &rt, alloc, &settings, &users, &plan, &mut clock, &mut net, &gate, &NoPause,
    );
    assert_eq!(rt; end, ServeEnd::Ended);
    assert!(rt; !gate.gave_up.load(SeqCst));
    assert!(rt; has_output(&rt, &first, STORED));
    assert!(rt; has_output(&rt, &second, SHOWN));
    Ok(())
}

// Holds connection 1 until so many moments were told, which are late ones meanwhile.
#[derive(Drop)]
struct HeldForJobs<'a> {
    told: &'a AtomicU64,
    moment: &'a AtomicU64,
    least: u64,
    gave_up: AtomicBool,
}

impl Gate for HeldForJobs<'_> {
    fn enter(&self, number: u64) {
        if number == 1 {
            self.moment.store(LATE, SeqCst);
            if !has_come(self.told, self.told.load(SeqCst).saturating_add(self.least)) {
                self.gave_up.store(true, SeqCst);
            }
            self.moment.store(EARLY, SeqCst);
        }
    }

    fn leave(&self, _number: u64) {}
}

// A check of the container asks for some 12 moments. A server without jobs would ask for none while the connection
// is held; and with jobs over another realm the PUT would be of the moment that the clock tells it, for no event of
// its own realm brought a later one.
#[test]
fn jobs_run_in_rounds_over_the_realm_of_the_connections(rt: HostRuntime) -> Result<(), Fail> {
    let alloc = rt.alloc();
    let (first, second) = (new_output(alloc)?, new_output(alloc)?);
    let mut net = net_of(rt, alloc, [(PUT, &first), (b"", &second)])?;
    let told = AtomicU64::new(0);
    let moment = AtomicU64::new(EARLY);
    let mut clock = SharedClock {
        told: &told,
        moment: &moment,
    };
    let gate = HeldForJobs {
        told: &told,
        moment: &moment,
        least: 40,
        gave_up: AtomicBool::new(false),
    };
    let settings = small_settings()?;
    let users = standard_users(alloc)?;
    let plan = plan(alloc, 1, None)?;
    let end = serve(
        &rt, alloc, &settings, &users, &plan, &mut clock, &mut net, &gate, &NoPause,
    );
    assert_eq!(rt; end, ServeEnd::Ended);
    assert!(rt; !gate.gave_up.load(SeqCst));
    assert!(rt; has_output(&rt, &first, STORED_LATER));
    Ok(())
}

// A connection that ends inside of a body ends alone: the one worker serves the next.
#[test]
fn a_worker_goes_on_behind_a_cut_connection(rt: HostRuntime) -> Result<(), Fail> {
    let alloc = rt.alloc();
    let (first, second) = (new_output(alloc)?, new_output(alloc)?);
    let cut = &PUT_THEN_GET[..90];
    let mut net = net_of(rt, alloc, [(cut, &first), (PUT_THEN_GET, &second)])?;
    let mut clock = StepClock::new(EARLY, 0);
    let settings = small_settings()?;
    let users = standard_users(alloc)?;
    let plan = plan(alloc, 1, Some(2))?;
    let end = serve(
        &rt, alloc, &settings, &users, &plan, &mut clock, &mut net, &OpenGate, &NoPause,
    );
    assert_eq!(rt; end, ServeEnd::Ended);
    assert!(rt; has_output(&rt, &first, b""));
    assert!(rt; has_output(&rt, &second, STORED_AND_SHOWN));
    Ok(())
}
