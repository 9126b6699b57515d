ghost use Rattle.std.specs.Prelude.{◌≡◌, ◌<◌, ◌≤◌, [], length, IfOk, IfSome, IfNone, IsOkUnless};
ghost use Rattle.cb_base.specs.declared.fault.Fault.TheVariants.{Memory};
ghost use Rattle.cb_crew.specs.Ring.{making, running, IsOfCrew, IsHandOf, StandsForAll, IsHeld, HoldsAll, HoldsInTurn, opening_hand, made_hand, running_hand, hired_hand, hiring_hand, claimed_hand, given_hand, joined_hand, kept_hand, most_peers};

use crate::ring_rule::{
    Claims, Gives, Grows, HandPass, Hires, Joins, Keeps, Makes, Places, RingQueue, Starts, Travels,
};
use cb_base::Fault;
use std::alloc::Global;
use std::marker::Model;
use std::sync::Wait;

/// A crew's ring, its run queue. Hands claim desks from its front and give them back at its back.
/// Contracts see its name, which tells which hands belong to it, and for how many desks it has
/// room.
///
/// Which desks wait in it can change at any moment, so no contract speaks of them. At every moment
/// each peer's desk waits in the ring or one hand holds it. While the crew runs, the desks are
/// where acts of the crew's core lead.
#[derive(Drop)]
pub struct Ring<D: Travels + Drop> {
    queue: RingQueue<D>,
}

impl<D: Travels + Drop> Model for Ring<D> {
    ghost use Rattle.cb_crew.specs.Ring.{RingState};
    ghost use Rattle.cb_crew.specs.Hand.{ring_state};

    ghost Value = { RingState };

    ghost view = { λ a. ring_state a.queue };
}

/// A hand of a crew: it claims desks from the ring and gives them back for one handler or more. It
/// has no bytes. Contracts see what it knows of the crew, the desks that it holds, and what it
/// remembers of the desk that it gave back last.
#[derive(Drop)]
pub struct Hand<D: Travels + Drop> {
    pass: HandPass<D>,
}

impl<D: Travels + Drop> Model for Hand<D> {
    ghost use Rattle.cb_crew.specs.Ring.{HandState};
    ghost use Rattle.cb_crew.specs.Hand.{hand_state, IsHand};

    ghost Value = { HandState D };

    ghost view = { λ a. hand_state a.pass };

    ghost invariant = { λ a. IsHand a.pass };
}

impl<D: Travels + Drop> Ring<D> {
    /// An empty ring for so many desks, with the one hand of its crew, which stands for all
    /// handlers. All memory that the ring ever needs is allocated here.
    ///
    /// Fails only with `Fault::Memory`.
    pub fn new(alloc: Global, peers: u16, handlers: u16) -> Result<(Ring<D>, Hand<D>), Fault>
        requires peers { (1 ≤ peers) × (peers ≤ most_peers) }
        requires handlers { (1 ≤ handlers) × (handlers ≤ 16) }
        ensures ring { IfOk result (λ made. made.0.capacity ≡ peers) }
        ensures hand { IfOk result (λ made. made.1 ≡ opening_hand made.0.name handlers) }
        ensures memory { IsOkUnless result Memory }
    {
        let (queue, mut pass) = RingQueue::ruled(alloc, usize::from(peers))?;
        for grown in 1..handlers {
            // No effect when it runs: it tells the prover what the type keeps.
            let _ = queue.another::<Grows>(&mut pass);
        }
        Ok((Ring { queue }, Hand { pass }))
    }

    /// Puts the next peer's desk at the back of the ring. The desk's name is added to the crew's
    /// names.
    pub fn make<R: Wait>(&self, rt: &R, hand: &mut Hand<D>, desk: D)
        requires hand { IsHandOf self.now hand.old × StandsForAll hand.old }
        requires stage { hand.old.stage ≡ making }
        requires next { ((D.shown desk).peer ≡ length hand.old.names)
            × (length hand.old.names < self.now.capacity) }
        ensures hand { hand.new ≡ made_hand hand.old (D.shown desk) }
        ensures ring { IsHandOf self.now hand.new }
    {
        match self.queue.push_as::<Makes, R>(rt, &mut hand.pass, desk) {
            Ok(()) => (),
            Err(_) => unreachable!(),
        }
    }

    /// All desks are in the ring. From now on hands may be hired, and may claim and give.
    pub fn start(&self, hand: &mut Hand<D>)
        requires hand { IsHandOf self.now hand.old × StandsForAll hand.old }
        requires stage { hand.old.stage ≡ making }
        ensures { hand.new ≡ running_hand hand.old }
    {
        // No effect when it runs: it tells the prover what the type keeps.
        let _ = self.queue.another::<Starts>(&mut hand.pass);
    }

    /// A new hand for one handler. The old hand then stands for one handler fewer.
    pub fn hire(&self, hand: &mut Hand<D>) -> Hand<D>
        requires hand { IsHandOf self.now hand.old × (2 ≤ hand.old.hands) }
        requires stage { hand.old.stage ≡ running }
        ensures hired { result ≡ hired_hand hand.old }
        ensures hand { hand.new ≡ hiring_hand hand.old }
    {
        Hand {
            pass: self.queue.another::<Hires>(&mut hand.pass),
        }
    }

    /// Claims the desk at the front of the ring. The hand then holds it.
    ///
    /// Returns `None` only if the ring was empty at some moment of the call. That can happen only
    /// if there are fewer desks than handlers.
    pub fn claim<R: Wait>(&self, rt: &R, hand: &mut Hand<D>) -> Option<D>
        requires hand { IsHandOf self.now hand.old × (hand.old.held ≡ []) }
        requires stage { hand.old.stage ≡ running }
        ensures claimed { IfSome result
            (λ desk. (hand.new ≡ claimed_hand hand.old (D.shown desk))
            × IsOfCrew hand.old.names (D.shown desk)) }
        ensures empty { IfNone result
            ((hand.new ≡ hand.old) × (length hand.old.names < hand.old.handlers)) }
    {
        self.queue.pop_as::<Claims, R>(rt, &mut hand.pass)
    }

    /// Gives the desk that the hand holds back, at the back of the ring. The hand remembers what
    /// was done with it.
    pub fn give<R: Wait>(&self, rt: &R, hand: &mut Hand<D>, desk: D)
        requires hand { IsHandOf self.now hand.old × IsHeld hand.old.held (D.shown desk) }
        requires stage { hand.old.stage ≡ running }
        ensures { hand.new ≡ given_hand hand.old (D.shown desk) }
    {
        match self.queue.push_as::<Gives, R>(rt, &mut hand.pass, desk) {
            Ok(()) => (),
            Err(_) => unreachable!(),
        }
    }

    /// Joins two hands: from now on the first stands for the other one's handlers too.
    pub fn join(&self, hand: &mut Hand<D>, other: Hand<D>)
        requires hand { IsHandOf self.now hand.old × IsHandOf self.now other }
        requires free { other.held ≡ [] }
        ensures { hand.new ≡ joined_hand hand.old other }
    {
        self.queue.absorb::<Joins>(&mut hand.pass, other.pass);
    }

    /// Claims the desk at the front of the ring to keep it. The hand must stand for all handlers.
    ///
    /// Returns `None` only if no desk is left: the hand holds the desks of all peers, each once.
    pub fn keep<R: Wait>(&self, rt: &R, hand: &mut Hand<D>) -> Option<D>
        requires { IsHandOf self.now hand.old × StandsForAll hand.old }
        ensures kept { IfSome result
            (λ desk. (hand.new ≡ kept_hand hand.old (D.shown desk))
            × IsOfCrew hand.old.names (D.shown desk)
            × (length hand.old.held < length hand.old.names)) }
        ensures empty { IfNone result ((hand.new ≡ hand.old) × HoldsAll hand.old) }
    {
        self.queue.pop_as::<Keeps, R>(rt, &mut hand.pass)
    }

    /// A fact for the prover: the hand holds what some handler holds in a state to which acts of
    /// the crew's core lead. So each law of the core about desks holds for this ring.
    pub fn in_turn(&self, hand: &mut Hand<D>)
        requires hand { IsHandOf self.now hand.old }
        requires stage { hand.old.stage ≡ running }
        ensures same { hand.new ≡ hand.old }
        ensures turn { HoldsInTurn hand.old }
    {
        // No effect when it runs: it tells the prover what the type keeps.
        self.queue.learn_as::<Places>(&mut hand.pass);
    }
}
