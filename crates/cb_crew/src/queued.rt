/// An entry of an inbox: an item, or a mark between two connections of the peer.
#[derive(Debug, Drop, PartialEq, Eq)]
pub enum Queued<M, O> {
    /// An item.
    Item(M),
    /// The connection ends. Only an open mark may come next.
    End,
    /// The next connection begins. It brings what serves that connection.
    Open(O),
}

impl<M, O> Queued<M, O> {
    ghost use Rattle.std.specs.Prelude.{◌≡◌};
    ghost use Rattle.cb_crew.specs.Queued.{is_open};

    /// Whether it is an open mark.
    pub fn is_open(&self) -> bool
        ensures { result ≡ is_open self.now }
    {
        matches!(self, Queued::Open(_))
    }
}

/// What an open mark brings: what serves the next connection.
pub trait Opening {
    /// It may begin a connection. Who queues an open mark has to prove it; who takes the mark may
    /// rely on it.
    ghost fresh: { Self → Type 0 };
}
