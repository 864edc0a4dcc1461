//! Packet numbers that are used up.

use replay_window::{SendCounter, Spent};

// The last two numbers, 2^48 - 2 and 2^48 - 1, and none after them.
const LAST: [Result<u64, Spent>; 4] = [
    Ok(281_474_976_710_654),
    Ok(281_474_976_710_655),
    Err(Spent),
    Err(Spent),
];

#[test]
fn the_last_numbers_are_used_once(rt: HostRuntime) {
    let mut counter = SendCounter::after(281_474_976_710_653);
    for number in LAST {
        assert!(rt; counter.next() == number);
    }
}
