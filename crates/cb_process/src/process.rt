//! A node's process: its node, the connections that last, and the addresses that it dials.
ghost use Rattle.std.specs.Prelude.{◌≡◌, ◌+◌, ◌≤◌, true, IfOk};
ghost use Rattle.cb_control.specs.Outcomes.{says_yes};
ghost use Rattle.cb_driver.specs.Auditing.{IsAudited};

use crate::aiming::targets_of;
use crate::dials::{Dial, DialKind, dials_of, end_dials};
use crate::doors::Doors;
use crate::host::ProcessHost;
use crate::limits::Limits;
use crate::orders::NodeOrders;
use crate::own_address::is_own;
use crate::start_fault::start_fault_of;
use crate::stopwatch::Stopwatch;
use crate::watching::Watched;
use cb_base::{Hash256, Seed};
use cb_control::{Moved, Refusal, Verdict};
use cb_driver::finish_audited;
use cb_node::{IncomingConnection, Node, NodeEnd, NodeFault, NodeSettings};
use cb_pipes::{LogRate, unix_time};
use cb_rpc_serve::StartFault;
use log::{Log, error, warn};
use std::alloc::Global;
use std::marker::Model;
use std::mem;
use std::net::SocketAddr;
use std::random::RandomSource;
use std::rt::Clock;

/// How many slots a node has at most.
const MOST_SLOTS: u16 = 1_000;

/// A node's process.
#[derive(Drop)]
pub struct Process<R: ProcessHost> {
    pub(crate) rt: R,
    pub(crate) alloc: Global,
    /// The seed of the node's tables.
    pub(crate) seed: Seed,
    pub(crate) settings: NodeSettings,
    pub(crate) node: Node<R>,
    /// Where it listens.
    pub(crate) address: SocketAddr,
    pub(crate) clock: Stopwatch,
    /// How many milliseconds pass from tick to tick.
    pub(crate) tick: u64,
    /// When the next tick is due, in milliseconds since the process began.
    pub(crate) next_tick: u64,
    /// When it may be logged again that a peer wasn't accepted, in milliseconds since the process
    /// began.
    pub(crate) next_complaint: u64,
    /// How often lines about connections are logged.
    pub(crate) log_rate: LogRate,
    /// The tip that was logged last.
    pub(crate) tip: Hash256,
    /// The connections that last.
    pub(crate) watched: Vec<Watched>,
    /// What peers may do.
    pub(crate) limits: Limits,
    /// Who was let in a moment ago.
    pub(crate) doors: Doors,
    /// The peer that waits for a slot.
    pub(crate) waiting: Option<IncomingConnection>,
    /// Until when that peer waits for the slot of a connection that is ended.
    pub(crate) room_by: u64,
    /// Whether the operator has the node have no connections.
    pub(crate) off: bool,
    /// The addresses that it dials.
    pub(crate) dials: Vec<Dial>,
    /// The address whose first dial an operator waits for.
    pub(crate) awaited: Option<SocketAddr>,
    /// What that came to: the address, and the slot that serves the connection.
    pub(crate) outcome: Option<(SocketAddr, Result<u16, Refusal>)>,
    /// How many nodes it had before this one.
    pub(crate) restarts: u64,
    /// How many connections there were.
    pub(crate) connections: u64,
    /// How many were turned away.
    pub(crate) refused: u64,
    /// What the connections that ended moved.
    pub(crate) moved: Moved,
}

impl<R: ProcessHost> Model for Process<R> {
    ghost use Rattle.std.specs.Prelude.{◌+◌, ◌≤◌, length};
    ghost use Rattle.cb_process.specs.Process.{ProcessState};

    ghost Value = { ProcessState };

    ghost view = { λ process. record {
      node = process.node;
      address = process.address;
      lasting = length process.watched.items;
    } };

    // A node can be started with its settings.
    ghost invariant = { λ process. (1 ≤ process.settings.inbound + process.settings.outbound)
        × (process.settings.inbound + process.settings.outbound ≤ 1000)
        × (1 ≤ process.settings.handlers) × (process.settings.handlers ≤ 16) };
}

impl<R: ProcessHost> Process<R> {
    /// Starts a node, which listens. Its tables, and those of the nodes that follow it, have this
    /// seed. If that fails no thread runs.
    pub fn start(
        rt: R,
        alloc: Global,
        seed: Seed,
        orders: &NodeOrders,
    ) -> Result<Process<R>, StartFault> {
        let settings = match settings_of(&rt, orders.handlers, &orders.limits) {
            Ok(settings) => settings,
            Err(fault) => return Err(start_fault_of(fault)),
        };
        let log_rate = LogRate::new(alloc)?;
        let mut node = Node::start_with_seed(rt, alloc, settings, seed).map_err(
            |fault| start_fault_of(fault),
        )?;
        match listen_and_aim(alloc, &mut node, orders) {
            Ok((address, dials)) => Ok(Process {
                rt,
                alloc,
                seed,
                settings,
                tip: node.look().tip,
                node,
                address,
                clock: Stopwatch::start(&rt),
                tick: orders.tick,
                next_tick: 0,
                next_complaint: 0,
                log_rate,
                watched: Vec::new(alloc),
                limits: orders.limits,
                doors: Doors::new(alloc),
                waiting: None,
                room_by: 0,
                off: false,
                dials,
                restarts: 0,
                awaited: None,
                outcome: None,
                connections: 0,
                refused: 0,
                moved: Moved::nothing(),
            }),
            Err(fault) => {
                drop(node.finish());
                drop(log_rate);
                Err(fault)
            }
        }
    }

    /// Where it allocates.
    pub fn alloc(&self) -> Global {
        self.alloc
    }

    /// By what it reads the clock.
    pub fn rt(&self) -> &R {
        &self.rt
    }

    /// Its node.
    pub fn node(&self) -> &Node<R> {
        &self.node
    }

    /// Where it listens.
    pub fn address(&self) -> SocketAddr
        ensures { result ≡ self.now.address }
    {
        self.address
    }

    /// The seed of the node's tables.
    pub fn seed(&self) -> Seed {
        self.seed
    }

    /// How many nodes it had before this one.
    pub fn restarts(&self) -> u64 {
        self.restarts
    }

    /// What tells the blocks that it mines from those of another.
    pub fn mark(&self) -> u8 {
        self.settings.nonce.to_le_bytes()[0]
    }

    /// The connections that last.
    pub fn watched(&self) -> &[Watched] {
        self.watched.as_slice()
    }

    /// Whether the operator has the node have no connections.
    pub fn is_off(&self) -> bool {
        self.off
    }

    /// Whether an operator waits for the first dial of an address.
    pub fn awaits_dial(&self) -> bool {
        self.awaited.is_some()
    }

    /// The address for whose first dial an operator waited, and what that came to.
    pub fn take_outcome(&mut self) -> Option<(SocketAddr, Result<u16, Refusal>)> {
        self.outcome.take()
    }

    /// The time in milliseconds since the process began.
    pub fn now(&mut self) -> u64 {
        self.clock.millis(&self.rt)
    }

    /// Logs which of these addresses is the node's own.
    pub fn note_own<L: Log>(&self, log: &L, addresses: &[SocketAddr]) {
        for address in addresses {
            if is_own(self.address, *address) {
                warn!(log; "{address} is this node's own address, which isn't dialled");
            }
        }
    }

    /// Ends the node and all its threads. Returns what is left of it, what its audit answers, and
    /// whether each of these addresses, which are dialled from the start, was reached once, but for
    /// those that aren't dialled any more.
    pub fn finish(self, starts: &[SocketAddr]) -> (NodeEnd<R>, Verdict, bool)
        ensures { IsAudited self.node.crew result.0.read result.0.desks.items result.1 }
    {
        let Process {
            rt,
            alloc,
            node,
            dials,
            ..
        } = self;
        let mut dials = dials;
        end_dials(&rt, dials.as_mut_slice());
        let reached = !dials.iter().any(|dial| dial.is_missed(starts));
        let (end, verdict) = finish_audited(&rt, alloc, node);
        (end, verdict, reached)
    }

    /// Ends the node, audits it, and starts another one over the same chain and mempool, which
    /// listens at the same address. Addresses are dialled anew. Returns what is left of the node
    /// that ended, what its audit answers, and whether that says yes and the new one took over all.
    ///
    /// Fails with `NodeFault::Io` and `NodeFault::Memory` if no other node can be started. Nothing
    /// was done then.
    pub fn renew<L: Log>(&mut self, log: &L) -> Result<(NodeEnd<R>, Verdict, bool), NodeFault>
        ensures audited { IfOk result
            (λ ended. IsAudited self.old.node.crew ended.0.read ended.0.desks.items ended.1) }
        ensures well { IfOk result (λ ended. ended.2 ≡ true → says_yes ended.1 ≡ true) }
    {
        let settings = settings_of(&self.rt, self.settings.handlers, &self.limits)?;
        let fresh = Node::start_with_seed(self.rt, self.alloc, settings, self.seed)?;
        let old = mem::replace(&mut self.node, fresh);
        end_dials(&self.rt, self.dials.as_mut_slice());
        self.note_all_ends(log);
        let (end, verdict) = finish_audited(&self.rt, self.alloc, old);
        self.settings = settings;
        self.restarts = self.restarts.saturating_add(1);
        self.forget_connections();
        let took = self.take_over(log, &end);
        let listens = self.listen_again(log);
        Ok((end, verdict, is_well(verdict, took, listens)))
    }

    /// The connections have ended with their node. What they moved stays counted, and each address
    /// that isn't dialled just once is due to be dialled.
    fn forget_connections(&mut self) {
        self.moved = self.moved_in_all();
        self.watched.clear();
        self.renew_dials();
    }

    /// No address is connected to. Those that are dialled just once are let go, and those that
    /// aren't dialled any more are left.
    fn renew_dials(&mut self) {
        for place in (0..self.dials.len()).rev() {
            let Some(dial) = self.dials.get_mut(place) else {
                return;
            };
            match dial.kind {
                DialKind::Lasting => dial.target.renew(),
                DialKind::Once => drop(self.dials.remove(place)),
                DialKind::Undone => {}
            }
        }
    }

    /// Gives the node the chain and the mempool of one that has ended. Returns whether that was
    /// done.
    fn take_over<L: Log>(&self, log: &L, end: &NodeEnd<R>) -> bool {
        match self.node.take_over(&*end.hall.lock(&self.rt)) {
            Ok(()) => true,
            Err(fault) => {
                error!(log; "the chain and the mempool weren't taken over: {fault}");
                false
            }
        }
    }

    /// Listens where the node before did. Returns whether that was possible.
    fn listen_again<L: Log>(&mut self, log: &L) -> bool {
        let address = self.address;
        match self.node.listen_at(address) {
            Ok(_) => true,
            Err(fault) => {
                error!(log; "nothing listens at {address} any more: {fault}");
                false
            }
        }
    }
}

/// Whether all went well: an audit says yes, and both of these hold.
pub fn is_well(verdict: Verdict, first: bool, second: bool) -> bool
    ensures { result ≡ true
        → (says_yes verdict ≡ true) × ((first ≡ true) × (second ≡ true)) }
{
    if !verdict.is_yes() {
        return false;
    }
    first && second
}

/// Lets a node listen, and returns where, and the addresses that it dials from the start.
fn listen_and_aim<R: ProcessHost>(
    alloc: Global,
    node: &mut Node<R>,
    orders: &NodeOrders,
) -> Result<(SocketAddr, Vec<Dial>), StartFault> {
    let address = node
        .listen_at(orders.listen)
        .map_err(|fault| start_fault_of(fault))?;
    let targets = targets_of(alloc, address, orders.connect.as_slice())?;
    Ok((address, dials_of(alloc, targets)?))
}

/// With what a node with so many handlers, at least 1 and at most 16, is started under these
/// limits. Its nonce and its salt are drawn; its time is the clock's. It has a slot of each kind at
/// least, and 1,000 at most.
fn settings_of<R: RandomSource + Clock>(
    rt: &R,
    handlers: u16,
    limits: &Limits,
) -> Result<NodeSettings, NodeFault>
    ensures slots { IfOk result (λ settings. (1 ≤ settings.inbound + settings.outbound)
        × (settings.inbound + settings.outbound ≤ 1000)) }
    ensures as_asked { 1 ≤ limits.now.inbound → 1 ≤ limits.now.outbound
        → limits.now.inbound + limits.now.outbound ≤ 1000
        → IfOk result (λ settings. (settings.inbound ≡ limits.now.inbound)
        × (settings.outbound ≡ limits.now.outbound)) }
    ensures handlers { IfOk result
        (λ settings. (1 ≤ settings.handlers) × (settings.handlers ≤ 16)) }
    ensures same { 1 ≤ handlers → handlers ≤ 16 →
        IfOk result (λ settings. settings.handlers ≡ handlers) }
{
    let mut nonce = [0u8; 8];
    let mut salt = [0u8; 8];
    rt.fill_bytes(&mut nonce)?;
    rt.fill_bytes(&mut salt)?;
    let inbound = limits.inbound.clamp(1, MOST_SLOTS - 1);
    Ok(NodeSettings {
        nonce: u64::from_le_bytes(nonce),
        time: unix_time(rt),
        salt: u64::from_le_bytes(salt),
        inbound,
        outbound: limits.outbound.clamp(1, MOST_SLOTS - inbound),
        handlers: handlers.clamp(1, 16),
        prompt: true,
    })
}
