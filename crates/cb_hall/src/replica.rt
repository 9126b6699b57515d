ghost use Rattle.std.specs.Prelude.{◌≡◌, ◌<◌, ◌^◌, ◌≤◌, IfOk, IsOkUnless, OnErr, OnOk};
ghost use Rattle.cb_base.specs.declared.fault.Fault.TheVariants.{Memory};
ghost use Rattle.cb_hall.specs.Connections.{AreCounted, counted, is_kicked, put_in};
ghost use Rattle.cb_hall.specs.Replica.{Does, IsFit, Steps, opening};
ghost use Rattle.cb_hall.specs.Replies.{Replies};

use crate::answer::Answer;
use crate::connections::Connections;
use crate::entry::Entry;
use crate::question::Question;
use crate::replying::{reply, submit};
use cb_base::{Fault, Seed};
use cb_state::{Connection, Relay};
use std::alloc::Global;
use std::marker::Model;

/// The most calls that a node grants.
pub const MOST_CALLS: u64 = 1 << 62;

/// The state that a journal's entries lead to: the state that the peers share, what is known of
/// their connections, and how many entries there were. Equal journals lead to equal replicas (state
/// machine replication). Its model is these three.
pub struct Replica {
    alloc: Global,
    state: Relay,
    connections: Connections,
    entries: u64,
}

impl Model for Replica {
    ghost use Rattle.std.specs.Prelude.{◌≤◌, ◌^◌};
    ghost use Rattle.cb_hall.specs.Connections.{AreCounted};
    ghost use Rattle.cb_hall.specs.Replica.{ReplicaState};

    ghost Value = { ReplicaState };

    ghost view = { λ replica.
        record {
          relay = replica.state;
          connections = replica.connections;
          entries = replica.entries;
        } };

    ghost invariant = { λ replica. (replica.entries ≤ 2 ^ 62)
        × AreCounted replica.entries replica.connections };
}

impl Drop for Replica {
    fn drop(self) {
        let Replica {
            alloc: _,
            state: _,
            connections: _,
            entries: _,
        } = self;
    }
}

impl Replica {
    /// The state before any entry. Its tables have this seed, which changes no result. Fails only
    /// with `Fault::Memory`.
    pub fn with_seed(alloc: Global, seed: Seed) -> Result<Replica, Fault>
        ensures opening { IfOk result (λ replica. replica ≡ opening) }
        ensures memory { IsOkUnless result Memory }
    {
        Ok(Replica {
            alloc,
            state: Relay::with_seed(alloc, seed)?,
            connections: Connections::new(alloc)?,
            entries: 0,
        })
    }

    /// The state that the peers share.
    pub fn state(&self) -> &Relay
        ensures { result.now ≡ self.now.relay }
    {
        &self.state
    }

    /// What is known of the peers' connections.
    pub fn connections(&self) -> &Connections
        ensures connections { result.now ≡ self.now.connections }
        ensures counted { AreCounted self.now.entries self.now.connections }
    {
        &self.connections
    }

    /// How many entries led to this state.
    pub fn entries(&self) -> u64
        ensures same { result ≡ self.now.entries }
        ensures few { result ≤ 2 ^ 62 }
    {
        self.entries
    }

    /// Applies an entry. Returns the answer if it is a question or comes from the node's own user.
    ///
    /// Fails only with `Fault::Memory`; the replica is then unchanged.
    pub fn apply(&mut self, entry: &Entry) -> Result<Option<Answer>, Fault>
        requires fit { IsFit self.old.connections entry.now }
        requires few { self.old.entries < 2 ^ 62 }
        ensures ok { IfOk result (λ told. Steps self.old entry.now told self.new) }
        ensures err { OnErr result (self.new ≡ self.old) }
        ensures memory { IsOkUnless result Memory }
    {
        let told = change(&mut self.state, &mut self.connections, entry)?;
        self.entries += 1;
        Ok(told)
    }

    /// An equal replica that shares the transactions and blocks. Fails only with `Fault::Memory`.
    pub fn copy(&self) -> Result<Replica, Fault>
        ensures same { IfOk result (λ copy. copy ≡ self.now) }
        ensures memory { IsOkUnless result Memory }
    {
        Ok(Replica {
            alloc: self.alloc,
            state: self.state.copy()?,
            connections: self.connections.copy(self.alloc)?,
            entries: self.entries,
        })
    }
}

/// Applies an entry to the state and the connections. Fails only with `Fault::Memory`; both are
/// then unchanged.
fn change(
    state: &mut Relay,
    connections: &mut Connections,
    entry: &Entry,
) -> Result<Option<Answer>, Fault>
    requires fit { IsFit connections.old entry.now }
    requires few { AreCounted (2 ^ 62) connections.old }
    ensures ok { IfOk result
        (λ told. Does state.old connections.old entry.now told state.new connections.new) }
    ensures state { OnErr result (state.new ≡ state.old) }
    ensures connections { OnErr result (connections.new ≡ connections.old) }
    ensures memory { IsOkUnless result Memory }
{
    match entry {
        Entry::Asked(connection, question) => {
            let answer = ask(state, connections, *connection, question)?;
            Ok(Some(answer))
        }
        Entry::Kick(connection) => {
            connections.kick(*connection);
            Ok(None)
        }
        Entry::Opened(connection) => {
            connections.open(connection.peer)?;
            state.leave(connection.peer);
            Ok(None)
        }
        Entry::Submitted(local) => Ok(Some(submit(state, local)?)),
    }
}

/// Answers a question and counts it. Fails only with `Fault::Memory`; nothing is then changed.
fn ask(
    state: &mut Relay,
    connections: &mut Connections,
    connection: Connection,
    question: &Question,
) -> Result<Answer, Fault>
    requires few { AreCounted (2 ^ 62) connections.old }
    ensures replies { IfOk result
        (λ answer. Replies
        (is_kicked connections.old connection) state.old connection question.now answer state.new) }
    ensures counted { OnOk result (connections.new ≡ put_in counted connection connections.old) }
    ensures state { OnErr result (state.new ≡ state.old) }
    ensures connections { OnErr result (connections.new ≡ connections.old) }
    ensures memory { IsOkUnless result Memory }
{
    if connections.is_kicked(connection) {
        connections.count(connection);
        return Ok(Answer::Kicked);
    }
    let answer = reply(state, connection, question)?;
    connections.count(connection);
    Ok(answer)
}
