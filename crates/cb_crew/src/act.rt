ghost use Rattle.std.specs.Prelude.{Some};

use std::fmt;

/// An entry of an inbox: an item, or a mark between two connections of the peer.
#[derive(Clone, Copy, Debug, PartialEq, Eq)]
pub enum Mark {
    /// An item.
    Item(u64),
    /// The connection ends. Only an open mark may come next.
    End,
    /// The next connection begins.
    Open,
}

impl fmt::Display for Mark {
    ghost use Rattle.cb_crew.specs.Text.{mark_text};

    ghost output = { λ mark. Some (mark_text mark) };

    /// The item in decimal, or `end`, or `open`.
    fn fmt<W: fmt::Write>(&self, f: &mut fmt::Formatter<W>) -> fmt::Result {
        match self {
            Mark::Item(item) => write!(f, "{item}"),
            Mark::End => write!(f, "end"),
            Mark::Open => write!(f, "open"),
        }
    }
}

/// One step of the crew. Peers and handlers are numbered from 0.
#[derive(Clone, Copy, Debug, PartialEq, Eq)]
pub enum Act {
    /// The peer's reader puts an item at the back of the peer's inbox.
    Put(u16, u64),
    /// The peer's reader puts the end mark at the back of the peer's inbox.
    End(u16),
    /// The peer's reader puts an open mark there, behind an end mark. The peer's next connection
    /// begins.
    Open(u16),
    /// The handler takes the desk at the front of the ring.
    Claim(u16),
    /// The handler takes the mark at the front of its desk's inbox.
    Take(u16),
    /// The handler puts its desk at the back of the ring.
    Give(u16),
}
