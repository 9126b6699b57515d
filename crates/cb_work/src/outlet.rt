ghost use Rattle.std.specs.Prelude.{◌≡◌};

/// A slot's sink: what is written into it goes out by that slot's socket. The slot and the sink
/// stay together.
pub struct Outlet<S> {
    slot: u16,
    pub(crate) sink: S,
}

impl<S: Drop> Drop for Outlet<S> {
    fn drop(self) {
        let Outlet { slot: _, sink: _ } = self;
    }
}

impl<S> Outlet<S> {
    /// The sink of this slot.
    pub fn new(slot: u16, sink: S) -> Outlet<S>
        ensures { (result.slot ≡ slot) × (result.sink ≡ sink) }
    {
        Outlet { slot, sink }
    }

    /// The slot's number.
    pub fn slot(&self) -> u16
        ensures { result ≡ self.now.slot }
    {
        self.slot
    }

    /// The sink.
    pub fn sink(&self) -> &S
        ensures { result.now ≡ self.now.sink }
    {
        &self.sink
    }
}
