ghost use Rattle.std.specs.Prelude.{◌≡◌, [], IfOk, IsOkUnless};
ghost use Rattle.cb_base.specs.declared.fault.Fault.TheVariants.{Memory};
ghost use Rattle.cb_state.specs.Announcers.{is_among, with_announcer, without_peer};

use crate::connection::Connection;
use cb_base::Fault;
use std::alloc::Global;
use std::marker::Model;

/// The most connections that are asked to announce new blocks as compact blocks (BIP 152: three).
pub(crate) const MOST_ANNOUNCERS: usize = 3;

/// The announcers: the connections that are asked to announce new blocks as compact blocks
/// (BIP 152, high-bandwidth mode). The one that gave the most recent new tip is last. There are at
/// most three, with room for a fourth. Its model is the list.
pub(crate) struct Announcers {
    list: Vec<Connection>,
}

impl Model for Announcers {
    ghost use Rattle.std.specs.Prelude.{◌≤◌, List, length, vec_capacity};
    ghost use Rattle.cb_state.specs.declared.connection.Connection.{Connection};

    ghost Value = { List Connection };

    ghost view = { λ announcers. announcers.list.items };

    ghost invariant = { λ announcers. (length announcers.list.items ≤ 3)
        × (4 ≤ vec_capacity announcers.list) };
}

impl Drop for Announcers {
    fn drop(self) {
        let Announcers { list: _ } = self;
    }
}

impl Announcers {
    /// No announcers. Fails only with `Fault::Memory`.
    pub(crate) fn new(alloc: Global) -> Result<Announcers, Fault>
        ensures none { IfOk result (λ announcers. announcers ≡ []) }
        ensures memory { IsOkUnless result Memory }
    {
        let list = Vec::with_capacity(alloc, MOST_ANNOUNCERS + 1)?;
        Ok(Announcers { list })
    }

    /// The announcers, in order.
    pub(crate) fn as_slice(&self) -> &[Connection]
        ensures { result.now ≡ self.now }
    {
        self.list.as_slice()
    }

    /// Whether a connection is an announcer.
    pub(crate) fn contains(&self, connection: Connection) -> bool
        ensures { result ≡ is_among self.now connection }
    {
        self.list.iter().any(|other| *other == connection)
    }

    /// Moves or adds a connection to the end. If there are then four, the first is dropped.
    pub(crate) fn put_last(&mut self, connection: Connection)
        ensures { self.new ≡ with_announcer self.old connection }
    {
        self.list.retain(|other| *other != connection);
        self.list.push_reserved(connection);
        if self.list.len() > MOST_ANNOUNCERS {
            self.list.remove(0);
        }
    }

    /// Removes all connections of a peer.
    pub(crate) fn leave(&mut self, peer: u16)
        ensures { self.new ≡ without_peer self.old peer }
    {
        self.list.retain(|other| other.peer != peer);
    }

    /// A copy. Fails only with `Fault::Memory`.
    pub(crate) fn copy(&self, alloc: Global) -> Result<Announcers, Fault>
        ensures same { IfOk result (λ copy. copy ≡ self.now) }
        ensures memory { IsOkUnless result Memory }
    {
        let mut list = Vec::with_capacity(alloc, MOST_ANNOUNCERS + 1)?;
        list.extend_from_slice(self.list.as_slice())?;
        Ok(Announcers { list })
    }
}
