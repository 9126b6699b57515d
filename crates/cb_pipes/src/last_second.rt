//! What was within the last second.
ghost use Rattle.std.specs.Prelude.{◌≡◌, ◌≤◌, ℕ, length, vec_capacity};
ghost use Rattle.cb_pipes.specs.LastSecond.{lately};

/// A second in milliseconds.
pub(crate) const SECOND: u64 = 1_000;

/// What has a time.
pub trait Dated {
    /// When it was, in milliseconds.
    ghost time: { Self → ℕ };

    /// When it was, in milliseconds.
    fn time(&self) -> u64
        ensures { result ≡ time self.now };
}

/// A time by itself.
impl Dated for u64 {
    ghost time = { λ time. time };

    fn time(&self) -> u64 {
        *self
    }
}

/// Keeps what was within the last second before `now`, in milliseconds, in its order.
pub fn keep_last_second<T: Dated + Drop>(entries: &mut Vec<T>, now: u64)
    ensures kept { entries.new.items ≡ lately T.time now entries.old.items }
    ensures few { length entries.new.items ≤ length entries.old.items }
    ensures room { vec_capacity entries.new ≡ vec_capacity entries.old }
{
    entries.retain(|entry| {
        let time = entry.time();
        now < time || now - time < SECOND
    });
}
