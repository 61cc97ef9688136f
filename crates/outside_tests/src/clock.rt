//! The clock of the system.
use desk_files::SystemClock;
use desk_outside::Clock;

#[test]
fn a_clock_tells_the_time_of_this_century(rt: HostRuntime) {
    let mut clock = SystemClock::new(&rt);
    assert!(rt; matches!(clock.now(), Ok(1_700_000_000..=4_000_000_000)));
}
