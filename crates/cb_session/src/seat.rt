ghost use Rattle.std.specs.Prelude.{◌≡◌, ◌<◌, ◌+◌, ◌-◌, ◌^◌, ℕ, Bool, true, false, List, [], ◌∷◌, ◌++◌, OnOk, OnErr, IfErr};
ghost use Rattle.cb_session.specs.declared.input.Input.{Input};

use crate::input::Input;
use std::sync::Wait;

/// The place from which a connection's reader puts inputs into its peer's inbox.
///
/// `put` and `end` may wait for room, and are to sleep meanwhile. A seat may look at the same flag
/// as the reader's `Stop` while it waits. It then gives back what it couldn't put, and the reader
/// asks its `Stop` before it tries again.
pub trait Seat {
    /// The inputs that were put so far, in order.
    ghost queued: { Self → List Input };

    /// Whether the connection was ended.
    ghost has_ended: { Self → Bool };

    /// How many puts and ends the seat counts. It may have counted those of other connections
    /// before.
    ghost counted: { Self → ℕ };

    /// The second is a later state of the same seat: it puts into the same inbox.
    ghost same_seat: { Self → Self → Type 0 };

    /// Puts an input behind the others. Waits while there is no room.
    ///
    /// The error gives the input back, and the seat is unchanged. The wait then ended without room,
    /// as when the reader is told to stop.
    fn put<R: Wait>(&mut self, rt: &R, input: Input) -> Result<(), Input>
        requires live { has_ended self.old ≡ false }
        requires place { counted self.old < 2 ^ 48 - 1 }
        ensures put { OnOk result (queued self.new ≡ queued self.old ++ input ∷ []) }
        ensures back { IfErr result (λ back. back ≡ input) }
        ensures unput { OnErr result (queued self.new ≡ queued self.old) }
        ensures counts { OnOk result (counted self.new ≡ counted self.old + 1) }
        ensures uncounted { OnErr result (counted self.new ≡ counted self.old) }
        ensures live { has_ended self.new ≡ false }
        ensures seat { same_seat self.old self.new };

    /// Ends the connection. Waits while there is no room for the end mark.
    ///
    /// If the result is false, the seat is unchanged. The wait then ended without room, as when the
    /// reader is told to stop.
    fn end<R: Wait>(&mut self, rt: &R) -> bool
        requires live { has_ended self.old ≡ false }
        requires place { counted self.old < 2 ^ 48 - 1 }
        ensures ended { has_ended self.new ≡ result }
        ensures queued { queued self.new ≡ queued self.old }
        ensures counts { result ≡ true → counted self.new ≡ counted self.old + 1 }
        ensures uncounted { result ≡ false → counted self.new ≡ counted self.old }
        ensures seat { same_seat self.old self.new };

    /// How many puts and ends the seat counts.
    fn count(&self) -> u64
        ensures { result ≡ counted self.now };

    /// A seat is the same as itself.
    ghost same_none: { (a : Self) → same_seat a a };

    /// If b is the same seat as a, and c the same as b, then c is the same as a.
    ghost same_then: { (a b c : Self) → same_seat a b → same_seat b c → same_seat a c };
}
