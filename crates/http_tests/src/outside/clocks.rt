// A clock in memory and the system's.
use super::sent;
use gw_io::{Clock, StepClock, SystemClock};
use std::test::Fail;
use std::time::Duration;
use std::{io, rt, thread};

fn next_moments<C: Clock>(clock: &mut C) -> [u64; 2] {
    [clock.now(), clock.now()]
}

#[test]
fn a_step_clock_and_its_twin_go_their_own_ways(rt: HostRuntime) {
    let mut clock = sent(StepClock::new(5, 3));
    assert_eq!(rt; next_moments(&mut clock), [5, 8]);
    let mut twin = clock.twin();
    assert_eq!(rt; next_moments(&mut twin), [11, 14]);
    assert_eq!(rt; next_moments(&mut clock), [11, 14]);
}

#[test]
fn a_step_clock_stops_at_the_greatest_moment(rt: HostRuntime) {
    let mut last = StepClock::new(u64::MAX - 1, 5);
    assert_eq!(rt; next_moments(&mut last), [u64::MAX - 1, u64::MAX]);
}

// The system's time, in whole microseconds since 1970.
fn system_moment<R: rt::Clock>(rt: &R) -> io::Result<u128> {
    Ok(rt.since_1970()?.as_micros())
}

// Each call asks the system anew: its moment stands between the system's times before and after it. The
// first second of 2020 is 1577836800, and the last one of 9999 is 253402300799.
#[test]
fn the_system_clock_tells_the_time_of_each_call(rt: HostRuntime) -> Result<(), Fail> {
    let mut clock = sent(SystemClock::new(rt));
    for _ in 0..2 {
        let before = system_moment(&rt)?;
        let first = u128::from(clock.now());
        thread::sleep(&rt, Duration::from_millis(2));
        let between = system_moment(&rt)?;
        let second = u128::from(clock.now());
        let after = system_moment(&rt)?;
        assert!(rt; before <= first && first < between && between <= second && second <= after);
        assert!(rt; 1_577_836_800_000_000 < before && after < 253_402_300_800_000_000);
        clock = clock.twin();
    }
    Ok(())
}
