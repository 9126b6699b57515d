ghost use Rattle.std.specs.Prelude.{◌≡◌, ◌<◌, ◌≤◌, ◌^◌, true, [], length, map, slice_index_or, vec_capacity};
ghost use Rattle.cb_crew.specs.Queued.{has_ended};
ghost use Rattle.cb_crew.specs.Desk.{KeepsWorks, NotTicked, first_label};
ghost use Rattle.cb_crew.specs.Turn.{shown_desk};
ghost use Rattle.cb_crew.specs.Ring.{StandsForAll};
ghost use Rattle.cb_crew.specs.Crew.{AreAllDesks, AreHandlersOf, AreInOrder, AreSidesOf, HasPlace, IsFreeHandOf, all_queued, inbox_of};
ghost use Rattle.cb_crew.specs.Headline.{IsFinished, IsSettled};

use crate::crew::Crew;
use crate::desk::Desk;
use crate::handler::Handler;
use crate::inbox::Inbox;
use crate::reader::EndedSeat;
use crate::reader_side::ReaderSide;
use crate::ring::Hand;
use crate::work::{Fresh, Work};
use std::sync::Wait;

impl<W: Work> Crew<W> {
    /// Ends the crew, once no thread works on it any more. Takes all desks out of the ring, serves
    /// all that is queued, ends each connection that lasts, and serves its end. Returns the desks
    /// in the order of their peers. It allocates nothing.
    ///
    /// `sides` must have the reader's side of each peer, in their order. `handlers` must have all
    /// handlers, with the crew's first handler first.
    ///
    /// Promises (`IsFinished`): each connection was served by its own work. That work was given the
    /// connection's items in order, each once, and nothing after the end. It was given all of them
    /// if it was given the end. All works are closed. The latest work of a desk let go of nothing,
    /// and the past ones only as far as their bound asks. No work was ticked.
    pub fn finish<R: Wait>(
        &self,
        rt: &R,
        sides: Vec<ReaderSide<W::Item, Fresh<W>>>,
        handlers: Vec<Handler<W>>,
    ) -> Vec<Desk<W>>
        requires sides { AreSidesOf self.now sides.items }
        requires handlers { AreHandlersOf self.now handlers.items }
        ensures { IsFinished W.label W.given W.ticked W.is_closed W.is_whole W.weight self.now
            sides.items result.items }
    {
        let (hand, desks) = self.gather(handlers);
        let mut desks = self.keep_all(rt, hand, desks);
        desks.sort_unstable_by_key(|desk| desk.peer());
        self.settle_all(rt, sides, desks)
    }

    /// Joins the hands of all handlers to one. Returns it with the first handler's empty list,
    /// which has room for all desks.
    fn gather(&self, handlers: Vec<Handler<W>>) -> (Hand<Desk<W>>, Vec<Desk<W>>)
        requires { AreHandlersOf self.now handlers.items }
        ensures hand { IsFreeHandOf self.now result.0 × StandsForAll result.0 }
        ensures desks { (result.1.items ≡ []) × (length self.now.inboxes ≤ vec_capacity result.1) }
    {
        let ring = &self.ring;
        let mut handlers = handlers.into_iter();
        let Some(first) = handlers.next() else {
            unreachable!()
        };
        let (mut hand, desks) = first.into_parts();
        for handler in handlers {
            let (other, _) = handler.into_parts();
            ring.join(&mut hand, other);
        }
        (hand, desks)
    }

    /// Takes all desks out of the ring.
    fn keep_all<R: Wait>(
        &self,
        rt: &R,
        mut hand: Hand<Desk<W>>,
        mut desks: Vec<Desk<W>>,
    ) -> Vec<Desk<W>>
        requires hand { IsFreeHandOf self.now hand × StandsForAll hand }
        requires desks { (desks.items ≡ []) × (length self.now.inboxes ≤ vec_capacity desks) }
        ensures { AreAllDesks self.now (map (shown_desk W.label W.is_closed) result.items) }
    {
        for _ in rt.forever() {
            let Some(desk) = self.ring.keep(rt, &mut hand) else {
                return desks;
            };
            desks.push_reserved(desk);
        }
        unreachable!()
    }

    /// Settles each peer's desk with its reader's side.
    fn settle_all<R: Wait>(
        &self,
        rt: &R,
        sides: Vec<ReaderSide<W::Item, Fresh<W>>>,
        mut desks: Vec<Desk<W>>,
    ) -> Vec<Desk<W>>
        requires sides { AreSidesOf self.now sides.items }
        requires desks { AreInOrder self.now (map (shown_desk W.label W.is_closed) desks.items) }
        ensures { IsFinished W.label W.given W.ticked W.is_closed W.is_whole W.weight self.now
            sides.items result.items }
    {
        for (peer, side) in sides.into_iter().enumerate() {
            settle(rt, &self.inboxes[peer], side, &mut desks[peer]);
        }
        desks
    }
}

/// Serves all that a reader queued. If a connection lasts, ends it and serves its end.
fn settle<W: Work, R: Wait>(
    rt: &R,
    inbox: &Inbox<W::Item, Fresh<W>>,
    side: ReaderSide<W::Item, Fresh<W>>,
    desk: &mut Desk<W>,
)
    requires inbox { (inbox_of side ≡ inbox.now.name) × (desk.old.inbox.name ≡ inbox.now.name) }
    requires place { HasPlace side }
    ensures same { desk.new.inbox ≡ desk.old.inbox }
    ensures label { first_label W.label desk.new ≡ first_label W.label desk.old }
    ensures settled { IsSettled W.label W.given W.is_closed (all_queued side) desk.new }
    ensures kept { KeepsWorks W.label W.given W.ticked W.is_closed W.is_whole W.weight desk.new }
    ensures ticks { NotTicked W.ticked desk.old desk.new }
{
    match side {
        ReaderSide::Live(mut reader) => {
            desk.learn(reader.note(inbox));
            desk.serve_all(rt);
            reader.learn(inbox, desk.note());
            // No effect when it runs: it tells the prover what the type keeps.
            let _some = inbox.capacity();
            match reader.end(rt, inbox) {
                Ok(ended) => settle_ended(rt, inbox, ended, desk),
                Err(_) => unreachable!(),
            }
        }
        ReaderSide::Ended(ended) => settle_ended(rt, inbox, ended, desk),
    }
}

/// Serves all that a reader queued whose last connection ended.
fn settle_ended<W: Work, R: Wait>(
    rt: &R,
    inbox: &Inbox<W::Item, Fresh<W>>,
    mut ended: EndedSeat<W::Item, Fresh<W>>,
    desk: &mut Desk<W>,
)
    requires inbox { (ended.inbox ≡ inbox.now.name) × (desk.old.inbox.name ≡ inbox.now.name) }
    ensures same { desk.new.inbox ≡ desk.old.inbox }
    ensures label { first_label W.label desk.new ≡ first_label W.label desk.old }
    ensures settled { IsSettled W.label W.given W.is_closed ended.queued desk.new }
    ensures kept { KeepsWorks W.label W.given W.ticked W.is_closed W.is_whole W.weight desk.new }
    ensures ticks { NotTicked W.ticked desk.old desk.new }
{
    desk.learn(ended.note(inbox));
    desk.serve_all(rt);
    ended.learn(inbox, desk.note());
    // No effect when it runs: it tells the prover what the type keeps.
    ended.reached();
    // No effect when it runs: it tells the prover what the type keeps.
    desk.served();
}
