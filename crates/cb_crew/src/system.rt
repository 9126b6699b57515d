ghost use Rattle.std.specs.Prelude.{⊤, ◌≡◌, ◌<◌, ◌≤◌, ◌↔◌, ◌⊎◌, length, IfOk, IfErr, OnOk, OnErr, IsOkUnless};
ghost use Rattle.std.specs.Prelude.{replicate};
ghost use Rattle.std.specs.List.{range_with_len};
ghost use Rattle.std.specs.Option.{option_to_list};
ghost use Rattle.std.specs.VecDeque.{deque_capacity};
ghost use Rattle.std.specs.VecDeque.Iter.{deque_iter_rest};
ghost use Rattle.cb_base.specs.declared.fault.Fault.TheVariants.{Memory, NotEnabled};
ghost use Rattle.cb_crew.specs.Answer.{Answers};
ghost use Rattle.cb_crew.specs.Desks.{held_by, claimed, given};
ghost use Rattle.cb_crew.specs.Line.{empty_line, line_taken};
ghost use Rattle.cb_crew.specs.CrewModel.{Step, IsEnabled, TakesMemory, IsReached, MayPut, Puts, MayClaim, MayTake, HoldsDesk, opening_crew, line_of, desk_of, with_line, with_desks};

use crate::act::{Act, Mark};
use crate::inbox_model::InboxModel;
use cb_base::Fault;
use std::alloc::Global;
use std::collections::{VecDeque, vec_deque};
use std::marker::Model;

/// A crew's inboxes and desks. Contracts see it as its state and the capacity of its inboxes. It is
/// always in a state to which some acts lead from the opening state.
///
/// An act copies no list: the taken marks are the front of the queued ones, and the rest waits in
/// the inbox.
#[derive(Drop)]
pub struct System {
    inboxes: Vec<InboxModel>,
    ring: VecDeque<u16>,
    held: Vec<Option<u16>>,
    capacity: usize,
}

impl Model for System {
    ghost use Rattle.cb_crew.specs.CrewModel.{Machine};

    ghost Value = { Machine };

    ghost use Rattle.cb_crew.specs.System.{machine_of, Keeps};

    ghost view = { machine_of };

    ghost invariant = { Keeps };
}

impl System {
    /// A system with nothing queued, whose ring holds the desks 0, 1, 2 and so on. An inbox holds
    /// up to `capacity` marks, end marks and open marks included.
    ///
    /// Fails only with `Fault::Memory`.
    pub fn new(alloc: Global, peers: u16, handlers: u16, capacity: usize) -> Result<System, Fault>
        requires peers { (1 ≤ peers) × (peers ≤ 64) }
        requires handlers { (1 ≤ handlers) × (handlers ≤ 16) }
        requires capacity { (1 ≤ capacity) × (capacity ≤ 1024) }
        ensures opening { IfOk result
            (λ system. (system.capacity ≡ capacity) × (system.crew ≡ opening_crew peers handlers)) }
        ensures memory { IsOkUnless result Memory }
    {
        let inboxes = empty_inboxes(alloc, peers)?;
        let ring = full_ring(alloc, peers)?;
        let held = free_hands(alloc, handlers)?;
        Ok(System {
            inboxes,
            ring,
            held,
            capacity,
        })
    }

    /// Does one act, if it is possible now.
    ///
    /// Fails with `Fault::NotEnabled` if the act isn't possible now. A Put, End or Open that is
    /// possible fails with `Fault::Memory` if an allocation fails. After a failure the system is
    /// unchanged.
    pub fn apply(&mut self, act: Act) -> Result<(), Fault>
        ensures step { OnOk result (Step self.old.capacity self.old.crew act self.new.crew) }
        ensures refused { (result ≡ Err NotEnabled) ↔
            (IsEnabled self.old.capacity self.old.crew act → ⊥) }
        ensures memory { IfErr result
            (λ fault. (fault ≡ NotEnabled) ⊎ ((fault ≡ Memory) × TakesMemory act)) }
        ensures err { OnErr result (self.new ≡ self.old) }
        ensures capacity { self.new.capacity ≡ self.old.capacity }
    {
        match act {
            Act::Put(peer, item) => self.put(peer, Mark::Item(item)),
            Act::End(peer) => self.put(peer, Mark::End),
            Act::Open(peer) => self.put(peer, Mark::Open),
            Act::Claim(handler) => self.claim(handler),
            Act::Take(handler) => self.take(handler),
            Act::Give(handler) => self.give(handler),
        }
    }

    /// A fact for the prover: some list of acts leads to this state from the opening state with as
    /// many peers and handlers. So every law of this crate holds for it.
    pub fn reached(&self)
        ensures { IsReached (length self.now.crew.lines)
            (length self.now.crew.desks.held) self.now.capacity self.now.crew }
    {
        // No effect when it runs: it tells the prover what the type keeps.
        let _ = &self.capacity;
    }

    /// Puts a mark at the back of a peer's inbox.
    fn put(&mut self, peer: u16, mark: Mark) -> Result<(), Fault>
        ensures answers { Answers (MayPut self.old.capacity self.old.crew peer mark)
            (Puts self.old.capacity self.old.crew peer mark self.new.crew) ⊤
            (self.new ≡ self.old) result }
        ensures capacity { self.new.capacity ≡ self.old.capacity }
    {
        let peer = usize::from(peer);
        if peer >= self.inboxes.len() {
            return Err(Fault::NotEnabled);
        }
        let capacity = self.capacity;
        let inbox = &mut self.inboxes[peer];
        if !inbox.has_room(capacity) || !inbox.may_follow(mark) {
            return Err(Fault::NotEnabled);
        }
        inbox.put(mark)
    }

    /// A handler takes the desk at the front of the ring.
    fn claim(&mut self, handler: u16) -> Result<(), Fault>
        ensures answers { Answers (MayClaim self.old.crew handler)
            (MayClaim self.old.crew handler
            × (self.new.crew ≡ with_desks self.old.crew (claimed self.old.crew.desks handler))) ⊥
            (self.new ≡ self.old) result }
        ensures capacity { self.new.capacity ≡ self.old.capacity }
    {
        let handler = usize::from(handler);
        if handler >= self.held.len() || self.held[handler].is_some() {
            return Err(Fault::NotEnabled);
        }
        match self.ring.pop_front() {
            Some(desk) => {
                self.held[handler] = Some(desk);
                Ok(())
            }
            None => Err(Fault::NotEnabled),
        }
    }

    /// A handler takes the mark at the front of its desk's inbox.
    fn take(&mut self, handler: u16) -> Result<(), Fault>
        ensures answers { Answers (MayTake self.old.crew handler)
            (MayTake self.old.crew handler
            × (self.new.crew
            ≡ with_line self.old.crew (desk_of self.old.crew handler)
            (line_taken (line_of self.old.crew (desk_of self.old.crew handler))))) ⊥
            (self.new ≡ self.old) result }
        ensures capacity { self.new.capacity ≡ self.old.capacity }
    {
        let handler = usize::from(handler);
        if handler >= self.held.len() {
            return Err(Fault::NotEnabled);
        }
        match self.held[handler] {
            Some(desk) => {
                let inbox = &mut self.inboxes[usize::from(desk)];
                if inbox.is_empty() {
                    return Err(Fault::NotEnabled);
                }
                inbox.take();
                Ok(())
            }
            None => Err(Fault::NotEnabled),
        }
    }

    /// A handler puts its desk at the back of the ring, which always has room for it.
    fn give(&mut self, handler: u16) -> Result<(), Fault>
        ensures answers { Answers (HoldsDesk self.old.crew handler)
            (HoldsDesk self.old.crew handler
            × (self.new.crew ≡ with_desks self.old.crew (given self.old.crew.desks handler))) ⊥
            (self.new ≡ self.old) result }
        ensures capacity { self.new.capacity ≡ self.old.capacity }
    {
        let handler = usize::from(handler);
        if handler >= self.held.len() {
            return Err(Fault::NotEnabled);
        }
        match self.held[handler] {
            Some(desk) => {
                self.ring.push_back_reserved(desk);
                self.held[handler] = None;
                Ok(())
            }
            None => Err(Fault::NotEnabled),
        }
    }

    /// How many peers there are, 1 to 64.
    pub fn peers(&self) -> u16
        ensures value { result ≡ length self.now.crew.lines }
        ensures some { 1 ≤ length self.now.crew.lines }
        ensures limit { length self.now.crew.lines ≤ 64 }
    {
        self.inboxes.len() as u16
    }

    /// How many handlers there are, 1 to 16.
    pub fn handlers(&self) -> u16
        ensures value { result ≡ length self.now.crew.desks.held }
        ensures some { 1 ≤ length self.now.crew.desks.held }
        ensures limit { length self.now.crew.desks.held ≤ 16 }
    {
        self.held.len() as u16
    }

    /// How many marks an inbox may hold, 1 to 1,024.
    pub fn capacity(&self) -> usize
        ensures { result ≡ self.now.capacity }
    {
        self.capacity
    }

    /// All marks queued for a peer, end marks and open marks included.
    pub fn queued(&self, peer: u16) -> &[Mark]
        requires { peer < length self.now.crew.lines }
        ensures { result.now ≡ (line_of self.now.crew peer).queued }
    {
        self.inboxes[usize::from(peer)].queued()
    }

    /// The marks that wait in a peer's inbox, the front first.
    pub fn inbox(&self, peer: u16) -> &[Mark]
        requires { peer < length self.now.crew.lines }
        ensures { result.now ≡ (line_of self.now.crew peer).inbox }
    {
        self.inboxes[usize::from(peer)].waiting()
    }

    /// All marks taken from a peer's inbox, in order.
    pub fn taken(&self, peer: u16) -> &[Mark]
        requires { peer < length self.now.crew.lines }
        ensures { result.now ≡ (line_of self.now.crew peer).taken }
    {
        self.inboxes[usize::from(peer)].taken()
    }

    /// The desks that wait in the ring, the front first.
    pub fn ring(&self) -> vec_deque::Iter<'_, u16>
        ensures { deque_iter_rest result ≡ self.now.crew.desks.ring }
    {
        self.ring.iter()
    }

    /// The desk that a handler holds, if any.
    pub fn held(&self, handler: u16) -> Option<u16>
        requires { handler < length self.now.crew.desks.held }
        ensures { option_to_list result ≡ held_by self.now.crew.desks handler }
    {
        self.held[usize::from(handler)]
    }
}

/// An empty inbox for each peer.
fn empty_inboxes(alloc: Global, peers: u16) -> Result<Vec<InboxModel>, Fault>
    ensures items { IfOk result (λ inboxes. inboxes.items ≡ replicate peers empty_line) }
    ensures memory { IsOkUnless result Memory }
{
    let mut inboxes = Vec::with_capacity(alloc, usize::from(peers))?;
    for _peer in 0..peers {
        inboxes.push(InboxModel::new(alloc))?;
    }
    Ok(inboxes)
}

/// A ring with the desks of all peers, in their order. It has room for all of them.
fn full_ring(alloc: Global, peers: u16) -> Result<VecDeque<u16>, Fault>
    ensures items { IfOk result (λ ring. ring.items ≡ range_with_len 0 peers) }
    ensures room { IfOk result (λ ring. peers ≤ deque_capacity ring) }
    ensures memory { IsOkUnless result Memory }
{
    let mut ring = VecDeque::with_capacity(alloc, usize::from(peers))?;
    for peer in 0..peers {
        ring.push_back(peer)?;
    }
    Ok(ring)
}

/// No desk for each handler.
fn free_hands(alloc: Global, handlers: u16) -> Result<Vec<Option<u16>>, Fault>
    ensures items { IfOk result (λ held. held.items ≡ replicate handlers None) }
    ensures memory { IsOkUnless result Memory }
{
    Ok(vec![in alloc; None; usize::from(handlers)]?)
}
