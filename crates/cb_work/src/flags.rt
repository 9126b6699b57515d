use crate::traffic::StepTraffic;
use cb_base::Shared;
use cb_wire::Item;

/// Which timer events are due.
#[derive(Clone, Copy, Debug, PartialEq, Eq)]
pub struct Beats {
    /// Whether a tick is due.
    pub tick: bool,
    /// Whether a probe is due.
    pub probe: bool,
}

/// The flags of one connection, which other threads set and read: whether a tick or a probe is due,
/// and whether the connection is over. They also tell when it was made, count what it moved, and
/// keep what its peer greeted with.
pub trait Flags: Drop {
    ghost use Rattle.std.specs.Prelude.{◌≡◌, Bool, true, List, ◌++◌, ◌∷◌, []};
    ghost use Rattle.cb_work.specs.declared.flags.Beats.{Beats};

    /// The tick flag and the probe flag were looked at with exactly these answers, in this order.
    ghost looks: { Self → List Beats → Type 0 };

    /// The stop flag was set.
    ghost is_stopped: { Self → Bool };

    /// Whether a tick is due, and whether a probe is. After the call none is, until its flag is set
    /// again.
    fn take_beats(&mut self) -> Beats
        ensures looks { (answers : List Beats) → looks self.old answers →
            looks self.new (answers ++ result ∷ []) }
        ensures stopped { is_stopped self.new ≡ is_stopped self.old };

    /// The time at which the connection was made, in seconds since 1970, if that was told.
    fn made_at(&self) -> Option<i64>;

    /// Sets the stop flag: the connection is over.
    fn stop(&mut self)
        ensures looks { (answers : List Beats) → looks self.old answers → looks self.new answers }
        ensures stopped { is_stopped self.new ≡ true };

    /// Keeps a `version` of the peer, if it is the first. No flag changes.
    fn keep_greeting(&mut self, item: &Shared<Item>)
        ensures looks { (answers : List Beats) → looks self.old answers → looks self.new answers }
        ensures stopped { is_stopped self.new ≡ is_stopped self.old };

    /// Counts what one step moved, and notes how far the session is. No flag changes.
    fn count_traffic(&mut self, traffic: &StepTraffic)
        ensures looks { (answers : List Beats) → looks self.old answers → looks self.new answers }
        ensures stopped { is_stopped self.new ≡ is_stopped self.old };
}
