ghost use Rattle.std.specs.Prelude.{◌≡◌, Bool, true};

/// Tells a reader whether it is to stop.
pub trait Stop {
    /// Whether `stopped` has answered true.
    ghost has_stopped: { Self → Bool };

    /// Whether the reader is to stop. Once the answer was true, it stays true.
    fn stopped(&mut self) -> bool
        ensures seen { has_stopped self.new ≡ result }
        ensures stays { has_stopped self.old ≡ true → result ≡ true };

    /// Whether `stopped` has answered true.
    fn seen(&self) -> bool
        ensures { result ≡ has_stopped self.now };
}
