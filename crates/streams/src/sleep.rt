use std::rt::Clock;
use std::thread;
use std::time::Duration;

// Waits a millisecond.
pub fn pause(clock: &impl Clock) {
    thread::sleep(clock, Duration::from_millis(1));
}
