// A little time.
use std::thread;
use std::time::{Clock, Duration};

// Waits for a thousandth of a second.
pub fn pause<R: Clock>(rt: &R) {
    thread::sleep(rt, Duration::from_millis(1));
}
