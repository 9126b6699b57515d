use std::rt::Clock;
use std::time::{Duration, SystemTime};

/// The time in seconds since 1970; 0 if the clock can't tell it.
pub fn unix_time<C: Clock>(clock: &C) -> i64 {
    i64::try_from(since_1970(clock).as_secs()).unwrap_or(i64::MAX)
}

/// The time in milliseconds since 1970; 0 if the clock can't tell it.
pub fn unix_millis<C: Clock>(clock: &C) -> i64 {
    i64::try_from(since_1970(clock).as_millis()).unwrap_or(i64::MAX)
}

/// The time since 1970; none if the clock can't tell it.
fn since_1970<C: Clock>(clock: &C) -> Duration {
    let Ok(now) = SystemTime::now(clock) else {
        return Duration::ZERO;
    };
    now.duration_since(SystemTime::UNIX_EPOCH)
        .unwrap_or(Duration::ZERO)
}
