//! What two nodes are joined by.
ghost use Rattle.std.specs.Prelude.{◌≡◌, ◌⊎◌, ◌↔◌, ◌<◌, true, false, length, None, Ok, IfSome, IsOkUnless, IsSome, OnOk};
ghost use Rattle.std.specs.List.{slice_index_or};
ghost use Rattle.cb_base.specs.declared.fault.Fault.TheVariants.{Memory};
ghost use Rattle.cb_hall.specs.Journal.{JournalState};
ghost use Rattle.cb_net_node.specs.Joined.{AnswersByHand, Hears, HearsNoneAt, HearsOneAt, Misbehaves, Over, Ticks, TicksAt, audited_at, has_session, on_its_way, state_at};

use crate::forged_link::ForgedLink;
use crate::lies::Misdeed;
use crate::net_link::NetLink;
use crate::side::Side;
use cb_audit::Audited;
use cb_base::Fault;
use cb_block::SoundBlock;
use cb_hall::Hall;
use cb_peer::State;
use cb_wire::BoundedMessage;
use std::alloc::Global;

/// What two nodes are joined by.
pub enum Joined {
    /// Two sessions: both nodes are honest.
    Honest(NetLink),
    /// One session, and messages made by hand: one node stalls or lies.
    Forged(ForgedLink),
}

impl Drop for Joined {
    fn drop(self) {
        match self {
            Joined::Honest(_) | Joined::Forged(_) => (),
        }
    }
}

impl Joined {
    /// How many messages are on their way to a side.
    pub fn waiting(&self, to: Side) -> usize
        ensures { result ≡ length (on_its_way self.now to) }
    {
        match self {
            Joined::Honest(link) => link.waiting(to),
            Joined::Forged(link) => link.on_its_way(to).len(),
        }
    }

    /// The message at a place of those, counted from the one that arrives next.
    pub fn message(&self, to: Side, place: usize) -> Option<&BoundedMessage>
        ensures within { IsSome result ↔ (place < length (on_its_way self.now to)) }
        ensures message { IfSome result (λ message.
            message.now ≡ slice_index_or (on_its_way self.now to) place message.now) }
    {
        match self {
            Joined::Honest(link) => link.message(to, place),
            Joined::Forged(link) => link.on_its_way(to).get(place),
        }
    }

    /// Whether a side has a session: its node doesn't stall or lie.
    pub fn has_session(&self, side: Side) -> bool
        ensures { result ≡ has_session self.now side }
    {
        match self {
            Joined::Honest(_) => true,
            Joined::Forged(link) => link.is_honest(side),
        }
    }

    /// A tick of a side, whose node may have a hall. Nothing happens if it has none, or if the side
    /// has no session.
    ///
    /// Fails only with `Fault::Memory`.
    pub fn tick(&mut self, side: Side, hall: Option<&mut Hall>) -> Result<(), Fault>
        ensures ticks { OnOk result (IsSome hall.entry → has_session self.old side ≡ true →
            (before after : JournalState) × Ticks side before after self.old self.new) }
        ensures none { hall.entry ≡ None → (result ≡ Ok tt) × (self.new ≡ self.old) }
        ensures no_session { has_session self.old side ≡ false →
            (result ≡ Ok tt) × (self.new ≡ self.old) }
        ensures memory { IsOkUnless result Memory }
    {
        if !self.has_session(side) {
            return Ok(());
        }
        match hall {
            Some(hall) => self.tick_with(side, hall),
            None => Ok(()),
        }
    }

    /// A tick of a side that has a session, whose node has this hall.
    fn tick_with(&mut self, side: Side, hall: &mut Hall) -> Result<(), Fault>
        ensures ok { OnOk result (Ticks side hall.old hall.new self.old self.new) }
        ensures memory { IsOkUnless result Memory }
    {
        match self {
            Joined::Honest(link) => tick_one(link, side, hall),
            Joined::Forged(link) => link.tick(hall),
        }
    }

    /// A side hears the message that arrives next. Its node may have a hall; if the side has no
    /// session, its node answers by hand.
    ///
    /// Fails only with `Fault::Memory`.
    pub fn hear(&mut self, alloc: Global, side: Side, hall: Option<&mut Hall>) -> Result<(), Fault>
        ensures hears { OnOk result (IsSome hall.entry → has_session self.old side ≡ true →
            (before after : JournalState) × Hears side before after self.old self.new) }
        ensures none { has_session self.old side ≡ true → hall.entry ≡ None →
            (result ≡ Ok tt) × (self.new ≡ self.old) }
        ensures by_hand { OnOk result (has_session self.old side ≡ false →
            AnswersByHand self.old self.new) }
        ensures memory { IsOkUnless result Memory }
    {
        if !self.has_session(side) {
            return self.hear_by_hand(alloc);
        }
        match hall {
            Some(hall) => self.hear_with(side, hall),
            None => Ok(()),
        }
    }

    /// A side that has a session hears the message that arrives next. Its node has this hall.
    fn hear_with(&mut self, side: Side, hall: &mut Hall) -> Result<(), Fault>
        ensures ok { OnOk result (Hears side hall.old hall.new self.old self.new) }
        ensures memory { IsOkUnless result Memory }
    {
        match self {
            Joined::Honest(link) => hear_one(link, side, hall),
            Joined::Forged(link) => link.hear(hall),
        }
    }

    /// The node that stalls or lies hears the message that arrives next, if there is such a node.
    fn hear_by_hand(&mut self, alloc: Global) -> Result<(), Fault>
        ensures ok { OnOk result (AnswersByHand self.old self.new) }
        ensures memory { IsOkUnless result Memory }
    {
        match self {
            Joined::Honest(_) => Ok(()),
            Joined::Forged(link) => link.hear_by_hand(alloc),
        }
    }

    /// Lets a node that stalls or lies begin to do so about a block. Nothing happens if both nodes
    /// are honest.
    ///
    /// Fails only with `Fault::Memory`.
    pub fn misbehave(
        &mut self,
        alloc: Global,
        misdeed: Misdeed,
        block: &SoundBlock,
    ) -> Result<(), Fault>
        ensures ok { OnOk result (Misbehaves misdeed block.now self.old self.new) }
        ensures memory { IsOkUnless result Memory }
    {
        match self {
            Joined::Honest(_) => Ok(()),
            Joined::Forged(link) => link.misbehave(alloc, misdeed, block),
        }
    }

    /// Ends all sessions that aren't over. What is on its way is lost.
    ///
    /// Fails only with `Fault::Memory`. All sessions are over all the same.
    pub fn end(&mut self) -> Result<(), Fault>
        ensures over { Over self.old self.new }
        ensures memory { IsOkUnless result Memory }
    {
        match self {
            Joined::Honest(link) => link.end(),
            Joined::Forged(link) => link.end(),
        }
    }

    /// How far the session of a side is, if it has one.
    pub fn state(&self, side: Side) -> Option<State>
        ensures { result ≡ state_at self.now side }
    {
        match self {
            Joined::Honest(link) => Some(link.state(side)),
            Joined::Forged(link) => {
                if link.is_honest(side) {
                    Some(link.state())
                } else {
                    None
                }
            }
        }
    }

    /// The session of a side for its node's audit, if it has one.
    pub fn audited(&self, side: Side) -> Option<Audited<'_>>
        ensures { result ≡ audited_at self.now side }
    {
        match self {
            Joined::Honest(link) => Some(Audited::new(link.connection(side), link.trace(side))),
            Joined::Forged(link) => {
                if link.is_honest(side) {
                    Some(Audited::new(link.connection(), link.trace()))
                } else {
                    None
                }
            }
        }
    }
}

/// A tick of one of two sessions, whose node has this hall. Fails only with `Fault::Memory`.
fn tick_one(link: &mut NetLink, side: Side, hall: &mut Hall) -> Result<(), Fault>
    ensures ok { OnOk result (TicksAt side hall.old hall.new link.old link.new) }
    ensures memory { IsOkUnless result Memory }
{
    let _given = link.tick(side, hall)?;
    Ok(())
}

/// One of two sessions hears the message that arrives next. Its node has this hall. Fails only with
/// `Fault::Memory`.
fn hear_one(link: &mut NetLink, side: Side, hall: &mut Hall) -> Result<(), Fault>
    ensures ok { OnOk result (HearsOneAt side hall.old hall.new link.old link.new
        ⊎ HearsNoneAt side hall.old hall.new link.old link.new) }
    ensures memory { IsOkUnless result Memory }
{
    let _heard = link.hear(side, hall)?;
    Ok(())
}
