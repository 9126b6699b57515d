//! A node of a network.
ghost use Rattle.std.specs.Prelude.{◌≡◌, ◌≤◌, ◌<◌, ◌+◌, ◌↔◌, ◌⊎◌, None, Option, Some, List, Ok, is_some, true, false, length, map, max, IfErr, IfOk, IfSome, IsErrOf, IsOkUnless, IsSome, IsTrue, OnErr, OnOk};
ghost use Rattle.cb_base.specs.declared.fault.Fault.TheVariants.{BadWork, JournalFull, Memory, Mutated, NoMore};
ghost use Rattle.cb_state.specs.Mining.{IsMined};
ghost use Rattle.cb_hall.specs.Badge.{BadgeState};
ghost use Rattle.cb_net_node.specs.Nodes.{HasBegun, IsNew, Mines, NotesTip, OpensNext, TakesSome, TakesTxs, Uses, at_once, is_honest, look_at, tip_of, told_height, unused};
ghost use Rattle.cb_net_node.specs.Sending.{left_at, time_of};

use crate::way::Way;
use cb_base::{Fault, Hash256, Seed, Shared};
use cb_block::{SoundBlock, Tx};
use cb_hall::{Badge, Hall, Local, Look};
use cb_net_plan::Role;
use std::alloc::Global;

/// The most peers of a hall.
const MOST_PEERS: usize = 1_024;

/// A node: its hall, its ends of links, and when its line is free.
pub struct SimulatedNode {
    /// What it is like.
    pub role: Role,
    /// What all its sessions share. A node that stalls or lies has none.
    pub hall: Option<Hall>,
    /// Its ends. The peer with the number p is at the far side of the link with the end `ends[p]`.
    pub ends: Vec<u32>,
    /// The badges of the first connections that weren't used yet, by peers.
    badges: Vec<Option<Badge>>,
    /// When all is sent that it has sent so far.
    free_at: u64,
    /// The tip that its sessions were last told of.
    pub tip: Hash256,
    /// When the block that is being relayed became its tip.
    pub came: Option<u64>,
    /// How it came to that block.
    pub way: Way,
}

impl Drop for SimulatedNode {
    fn drop(self) {
        let SimulatedNode {
            role: _,
            hall: _,
            ends: _,
            badges: _,
            free_at: _,
            tip: _,
            came: _,
            way: _,
        } = self;
    }
}

impl SimulatedNode {
    /// A node of this role that has no links, and no hall yet.
    pub fn new(alloc: Global, role: Role) -> SimulatedNode
        ensures { IsNew role result }
    {
        SimulatedNode {
            role,
            hall: None,
            ends: Vec::new(alloc),
            badges: Vec::new(alloc),
            free_at: 0,
            tip: Hash256([0; 32]),
            came: None,
            way: Way::AT_ONCE,
        }
    }

    /// Whether it does what the protocol says.
    pub fn is_honest(&self) -> bool
        ensures { result ≡ is_honest self.now }
    {
        match self.role {
            Role::Honest => true,
            Role::Stalls | Role::Lies => false,
        }
    }

    /// Gives an honest node a hall with nothing in it, in which each of its ends has a peer. The
    /// hall's tables have this seed, which changes no result.
    ///
    /// Fails with `Fault::NoMore` if it is honest and has more than 1,024 ends, and with
    /// `Fault::Memory`; nothing changes then.
    pub fn begin(&mut self, alloc: Global, seed: Seed) -> Result<(), Fault>
        ensures honest { is_honest self.old ≡ true → OnOk result
            (HasBegun (max (length self.old.ends.items) 1) self.old self.new) }
        ensures none { is_honest self.old ≡ false → (result ≡ Ok tt) × (self.new ≡ self.old) }
        ensures err { OnErr result (self.new ≡ self.old) }
        ensures no_more { IsErrOf result NoMore ↔
            ((is_honest self.old ≡ true) × (1024 < length self.old.ends.items)) }
        ensures kinds { IfErr result (λ fault. (fault ≡ NoMore) ⊎ (fault ≡ Memory)) }
    {
        if !self.is_honest() {
            return Ok(());
        }
        let peers = self.ends.len().max(1);
        if peers > MOST_PEERS {
            return Err(Fault::NoMore);
        }
        let (hall, badges) = Hall::with_seed(alloc, peers as u16, seed)?;
        let badges = match waiting(alloc, badges) {
            Ok(badges) => badges,
            Err(fault) => {
                // Its destructor is called by name, or the prover would go through all its parts.
                drop(hall);
                return Err(fault);
            }
        };
        self.tip = hall.look().tip;
        self.badges = badges;
        drop(self.hall.replace(hall));
        Ok(())
    }

    /// The badge of the next connection of a peer: that of its first one, if it wasn't used yet,
    /// else one that the hall opens.
    ///
    /// Fails as `Hall::open` does, and with `Fault::NoMore` if the node has no hall or no such
    /// peer. Nothing changes then.
    pub fn badge(&mut self, peer: u16) -> Result<Badge, Fault>
        ensures first { (badge : BadgeState) → unused self.old peer ≡ Some badge →
            (result ≡ Ok badge) × Uses peer self.old self.new }
        ensures next { unused self.old peer ≡ None →
            IfOk result (λ badge. OpensNext peer badge self.old self.new) }
        ensures err { OnErr result (self.new ≡ self.old) }
        ensures kinds { IfErr result
            (λ fault. (fault ≡ NoMore) ⊎ (fault ≡ JournalFull) ⊎ (fault ≡ Memory)) }
    {
        if let Some(badge) = self.take_unused(peer) {
            return Ok(badge);
        }
        if peer as usize >= MOST_PEERS {
            return Err(Fault::NoMore);
        }
        match &mut self.hall {
            Some(hall) => hall.open(peer),
            None => Err(Fault::NoMore),
        }
    }

    /// Whether the badge of a peer's first connection wasn't used yet.
    fn has_unused(&self, peer: u16) -> bool
        ensures { result ≡ is_some (unused self.now peer) }
    {
        match self.badges.as_slice().get(peer as usize) {
            Some(place) => place.is_some(),
            None => false,
        }
    }

    /// Takes the badge of a peer's first connection, if it wasn't used yet.
    fn take_unused(&mut self, peer: u16) -> Option<Badge>
        ensures badge { result ≡ unused self.old peer }
        ensures uses { IsSome result → Uses peer self.old self.new }
        ensures same { result ≡ None → self.new ≡ self.old }
    {
        if !self.has_unused(peer) {
            return None;
        }
        self.badges[peer as usize].take()
    }

    /// Takes transactions into its mempool, as far as they fit, if it has a hall.
    ///
    /// Fails with `Fault::JournalFull` as `Hall::submit` does, and with `Fault::Memory`. The hall
    /// may have taken the first of them then.
    pub fn take_txs(&mut self, txs: &[Shared<Tx>]) -> Result<(), Fault>
        ensures ok { OnOk result (TakesTxs txs.now self.old.hall self.new.hall) }
        ensures err { OnErr result (TakesSome txs.now self.old.hall self.new.hall) }
        ensures others { self.new ≡ record self.old { hall = self.new.hall } }
        ensures kinds { IfErr result (λ fault. (fault ≡ JournalFull) ⊎ (fault ≡ Memory)) }
    {
        match &mut self.hall {
            Some(hall) => take_all(hall, txs),
            None => Ok(()),
        }
    }

    /// Mines a block with a mark on its tip, and takes it.
    ///
    /// Fails as `Hall::mine` and `Hall::submit` do, and with `Fault::NoMore` if it has no hall.
    /// Nothing changes then.
    pub fn mine(&mut self, mark: u8) -> Result<SoundBlock, Fault>
        ensures ok { IfOk result (λ block. Mines mark block self.old self.new) }
        ensures err { OnErr result (self.new ≡ self.old) }
        ensures no_hall { IsErrOf result NoMore ↔ (self.old.hall ≡ None) }
        ensures kinds { IfErr result (λ fault. (fault ≡ Memory) ⊎ (fault ≡ NoMore)
            ⊎ (fault ≡ JournalFull) ⊎ (fault ≡ BadWork) ⊎ (fault ≡ Mutated)) }
    {
        let Some(hall) = &mut self.hall else {
            return Err(Fault::NoMore);
        };
        let block = mined(hall, mark)?;
        let _answer = hall.submit(Local::Block(block.copy()?))?;
        Ok(block)
    }

    /// Sends so many bytes, behind all that it sent before, at so many bytes a second. Returns how
    /// long from now the last byte has left, in microseconds.
    pub fn send(&mut self, now: u64, bytes: u64, rate: u64) -> u64
        ensures leaves { now + result ≡ self.new.free_at }
        ensures left { self.new ≡ record self.old {
          free_at = left_at self.old.free_at now bytes rate;
        } }
        ensures later { self.old.free_at ≤ self.new.free_at }
    {
        let begins = self.free_at.max(now);
        self.free_at = begins.saturating_add(taking(bytes, rate));
        self.free_at - now
    }

    /// A summary of its hall, if it has one.
    pub fn look(&self) -> Option<Look>
        ensures { result ≡ look_at self.now }
    {
        match &self.hall {
            Some(hall) => Some(hall.look()),
            None => None,
        }
    }

    /// The height of its tip, for `version`; 0 if it has no hall.
    pub fn height(&self) -> i32
        ensures { result ≡ told_height (look_at self.now) }
    {
        match self.look() {
            Some(look) => i32::try_from(look.height).unwrap_or(0),
            None => 0,
        }
    }

    /// Forgets the block that was relayed before.
    pub fn forget(&mut self)
        ensures { self.new ≡ record self.old { came = None; way = at_once } }
    {
        self.came = None;
        self.way = Way::AT_ONCE;
    }

    /// Notes the tip of its hall at a time, while a block is relayed. Returns whether it is another
    /// than before.
    pub fn note_tip(&mut self, now: u64, block: &Hash256) -> bool
        ensures notes { IsTrue result → NotesTip now block.now self.old self.new }
        ensures same { result ≡ false → self.new ≡ self.old }
        ensures known { result ≡ false → IfSome self.old.hall (λ hall. tip_of hall ≡ self.old.tip) }
    {
        let Some(look) = self.look() else {
            return false;
        };
        let tip = look.tip;
        if tip == self.tip {
            return false;
        }
        self.tip = tip;
        if tip == *block && self.came.is_none() {
            self.came = Some(now);
        }
        true
    }
}

/// A block with a mark on a hall's tip. Fails as `Hall::mine` does.
fn mined(hall: &Hall, mark: u8) -> Result<SoundBlock, Fault>
    ensures mined { IfOk result (λ block. IsMined hall.now.latest.relay mark block) }
    ensures kinds { IfErr result
        (λ fault. (fault ≡ Memory) ⊎ (fault ≡ BadWork) ⊎ (fault ≡ Mutated)) }
{
    hall.mine(mark)
}

/// A hall takes transactions, one after another, as far as they fit. Fails as `Hall::submit` does,
/// and with `Fault::Memory`. It may have taken the first of them then.
fn take_all(hall: &mut Hall, txs: &[Shared<Tx>]) -> Result<(), Fault>
    ensures ok { OnOk result (TakesTxs txs.now (Some hall.old) (Some hall.new)) }
    ensures err { OnErr result (TakesSome txs.now (Some hall.old) (Some hall.new)) }
    ensures kinds { IfErr result (λ fault. (fault ≡ JournalFull) ⊎ (fault ≡ Memory)) }
{
    for tx in txs {
        let _answer = hall.submit(Local::Tx(tx.clone()?))?;
    }
    Ok(())
}

/// How many microseconds so many bytes take, at so many bytes a second.
fn taking(bytes: u64, rate: u64) -> u64
    ensures { result ≡ time_of bytes rate }
{
    if rate == 0 {
        return u64::MAX;
    }
    bytes.saturating_mul(1_000_000) / rate
}

/// The badges, each as one that wasn't used. Fails only with `Fault::Memory`.
fn waiting(alloc: Global, badges: Vec<Badge>) -> Result<Vec<Option<Badge>>, Fault>
    ensures all { IfOk result (λ list. list.items ≡ map (λ badge. Some badge) badges.items) }
    ensures memory { IsOkUnless result Memory }
{
    let mut list = Vec::with_capacity(alloc, badges.len())?;
    for badge in badges {
        list.push(Some(badge))?;
    }
    Ok(list)
}
