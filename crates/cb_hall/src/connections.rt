ghost use Rattle.std.specs.Prelude.{◌≡◌, ◌-◌, ◌<◌, ◌^◌, ◌++◌, ◌∷◌, [], replicate, IfOk, IfSome, IsOkUnless, OnErr, OnOk};
ghost use Rattle.cb_base.specs.declared.fault.Fault.TheVariants.{Memory};
ghost use Rattle.cb_hall.specs.Connections.{changed_at, connected_at, connected_of, counted, first_slots, fresh, in_slot, is_kicked, kicked, latest_of, most_peers, opened, put_in};

use cb_base::Fault;
use cb_state::Connection;
use std::alloc::Global;
use std::marker::Model;

/// How many peers a node can have. They are numbered 0 to 1,023.
pub const PEERS: u16 = 1_024;

/// What is known of a connection.
#[derive(Clone, Copy, PartialEq, Eq)]
pub struct Connected {
    /// How many questions it was granted.
    pub count: u64,
    /// Whether it was kicked.
    pub kicked: bool,
}

/// One peer's connections, ordered by generation. Its model is the list.
#[derive(Drop)]
struct PeerConnections {
    list: Vec<Connected>,
}

impl Model for PeerConnections {
    ghost use Rattle.std.specs.Prelude.{List};
    ghost use Rattle.cb_hall.specs.declared.connections.Connected.{Connected};

    ghost Value = { List Connected };

    ghost view = { λ slot. slot.list.items };
}

/// A connection that has asked nothing.
const FRESH: Connected = Connected {
    count: 0,
    kicked: false,
};

impl PeerConnections {
    /// A slot with a peer's first connection. Fails only with `Fault::Memory`.
    fn new(alloc: Global) -> Result<PeerConnections, Fault>
        ensures first { IfOk result (λ slot. slot ≡ fresh ∷ []) }
        ensures memory { IsOkUnless result Memory }
    {
        let mut list = Vec::with_capacity(alloc, 1)?;
        list.push(FRESH)?;
        Ok(PeerConnections { list })
    }

    /// The connection of a generation, if there is one.
    fn get(&self, generation: u64) -> Option<Connected>
        ensures { result ≡ connected_at self.now generation }
    {
        if generation == 0 {
            return None;
        }
        if generation > self.list.len() as u64 {
            return None;
        }
        Some(self.list[(generation - 1) as usize])
    }

    /// Replaces the connection of a generation, if there is one.
    fn put(&mut self, generation: u64, connected: Connected)
        ensures { self.new ≡ in_slot (λ _. connected) generation self.old }
    {
        if generation == 0 {
            return;
        }
        if generation > self.list.len() as u64 {
            return;
        }
        self.list[(generation - 1) as usize] = connected;
    }

    /// Appends a connection. Fails only with `Fault::Memory`; the slot is then unchanged.
    fn open(&mut self) -> Result<(), Fault>
        ensures ok { OnOk result (self.new ≡ self.old ++ fresh ∷ []) }
        ensures err { OnErr result (self.new ≡ self.old) }
        ensures memory { IsOkUnless result Memory }
    {
        self.list.push(FRESH)?;
        Ok(())
    }

    /// A copy. Fails only with `Fault::Memory`.
    fn copy(&self, alloc: Global) -> Result<PeerConnections, Fault>
        ensures same { IfOk result (λ copy. copy ≡ self.now) }
        ensures memory { IsOkUnless result Memory }
    {
        Ok(PeerConnections {
            list: Vec::from_slice(alloc, self.list.as_slice())?,
        })
    }
}

/// What is known of all connections of all peers. Its model is one list for each of the peers,
/// with the connection of generation 1 first.
#[derive(Drop)]
pub struct Connections {
    slots: Vec<PeerConnections>,
}

impl Model for Connections {
    ghost use Rattle.std.specs.Prelude.{◌≡◌, List, length};
    ghost use Rattle.cb_hall.specs.Connections.{most_peers};
    ghost use Rattle.cb_hall.specs.declared.connections.Connected.{Connected};

    ghost Value = { List (List Connected) };

    ghost view = { λ connections. connections.slots.items };

    ghost invariant = { λ connections. length connections.slots.items ≡ most_peers };
}

impl Connections {
    /// The first connection of each peer. Fails only with `Fault::Memory`.
    pub fn new(alloc: Global) -> Result<Connections, Fault>
        ensures first { IfOk result (λ connections. connections ≡ first_slots) }
        ensures memory { IsOkUnless result Memory }
    {
        Ok(Connections {
            slots: slots_of(alloc, PEERS)?,
        })
    }

    /// What is known of a connection, if it exists.
    pub fn get(&self, connection: Connection) -> Option<Connected>
        ensures { result ≡ connected_of self.now connection }
    {
        self.slots
            .get(connection.peer as usize)?
            .get(connection.generation)
    }

    /// Whether a connection was kicked; `false` if it doesn't exist.
    pub fn is_kicked(&self, connection: Connection) -> bool
        ensures { result ≡ is_kicked self.now connection }
    {
        match self.get(connection) {
            Some(connected) => connected.kicked,
            None => false,
        }
    }

    /// The generation of a peer's latest connection; 0 if there is no such peer.
    pub fn latest(&self, peer: u16) -> u64
        ensures { result ≡ latest_of self.now peer }
    {
        match self.slots.get(peer as usize) {
            Some(slot) => slot.list.len() as u64,
            None => 0,
        }
    }

    /// Replaces what is known of a connection, if it exists.
    fn put(&mut self, connection: Connection, connected: Connected)
        ensures { self.new ≡ put_in (λ _. connected) connection self.old }
    {
        let peer = connection.peer as usize;
        if peer < self.slots.len() {
            self.slots[peer].put(connection.generation, connected);
        }
    }

    /// Counts one more question of a connection, if it exists.
    pub(crate) fn count(&mut self, connection: Connection)
        requires { IfSome (connected_of self.old connection)
            (λ connected. connected.count < 2 ^ 64 - 1) }
        ensures { self.new ≡ put_in counted connection self.old }
    {
        if let Some(connected) = self.get(connection) {
            self.put(
                connection,
                Connected {
                    count: connected.count + 1,
                    kicked: connected.kicked,
                },
            );
        }
    }

    /// Marks a connection as kicked, if it exists.
    pub(crate) fn kick(&mut self, connection: Connection)
        ensures { self.new ≡ put_in kicked connection self.old }
    {
        if let Some(connected) = self.get(connection) {
            self.put(
                connection,
                Connected {
                    count: connected.count,
                    kicked: true,
                },
            );
        }
    }

    /// Opens a peer's next connection. Fails only with `Fault::Memory`; nothing is then changed.
    pub(crate) fn open(&mut self, peer: u16) -> Result<(), Fault>
        requires { peer < most_peers }
        ensures ok { OnOk result (self.new ≡ changed_at opened peer self.old) }
        ensures err { OnErr result (self.new ≡ self.old) }
        ensures memory { IsOkUnless result Memory }
    {
        self.slots[peer as usize].open()
    }

    /// A copy. Fails only with `Fault::Memory`.
    pub fn copy(&self, alloc: Global) -> Result<Connections, Fault>
        ensures same { IfOk result (λ copy. copy ≡ self.now) }
        ensures memory { IsOkUnless result Memory }
    {
        Ok(Connections {
            slots: copy_slots(alloc, self.slots.as_slice())?,
        })
    }
}

/// The first connections of that many peers. Fails only with `Fault::Memory`.
fn slots_of(alloc: Global, peers: u16) -> Result<Vec<PeerConnections>, Fault>
    ensures first { IfOk result (λ slots. slots.items ≡ replicate peers (fresh ∷ [])) }
    ensures memory { IsOkUnless result Memory }
{
    let mut slots = Vec::with_capacity(alloc, peers as usize)?;
    for _ in 0..peers {
        slots.push(PeerConnections::new(alloc)?)?;
    }
    Ok(slots)
}

/// A copy of all slots. Fails only with `Fault::Memory`.
fn copy_slots(alloc: Global, slots: &[PeerConnections]) -> Result<Vec<PeerConnections>, Fault>
    ensures same { IfOk result (λ copies. copies.items ≡ slots.now) }
    ensures memory { IsOkUnless result Memory }
{
    let mut copies = Vec::with_capacity(alloc, slots.len())?;
    for slot in slots {
        copies.push(slot.copy(alloc)?)?;
    }
    Ok(copies)
}
