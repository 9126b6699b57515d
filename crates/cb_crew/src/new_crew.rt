ghost use Rattle.std.specs.Prelude.{◌≡◌, ◌≤◌, [], length, map, vec_capacity, All, IfOk, IfErr, IsOkUnless};
ghost use Rattle.cb_base.specs.declared.fault.Fault.TheVariants.{Memory};
ghost use Rattle.cb_crew.specs.Work.{IsFresh};
ghost use Rattle.cb_crew.specs.Seat.{opening_seat};
ghost use Rattle.cb_crew.specs.Ring.{StandsForAll, most_peers};
ghost use Rattle.cb_crew.specs.Desk.{desk_state};
ghost use Rattle.cb_crew.specs.Crew.{AreHandlersOf, AreOpeningSeats, IsFreeHandOf, IsNewCrew, MadeNoTurn};
ghost use Rattle.cb_crew.specs.Unmanned.{AreLines, IsOpeningHandOf};

use crate::crew::Crew;
use crate::desk::Desk;
use crate::handler::Handler;
use crate::inbox::Inbox;
use crate::reader::ReaderSeat;
use crate::ring::{Hand, Ring};
use crate::taker::TakerSeat;
use crate::work::{Fresh, Work};
use cb_base::{Fault, Shared};
use std::alloc::Global;
use std::marker::Model;
use std::mem;
use std::sync::Wait;

/// How many works of past connections a desk keeps at most.
const MOST_PAST: usize = 255;

/// A new crew, with its readers' seats and its handlers.
#[derive(Drop)]
pub struct NewCrew<W: Work> {
    /// The crew.
    pub crew: Crew<W>,
    /// The readers' seats of all peers, in their order.
    pub readers: Vec<ReaderSeat<W::Item, Fresh<W>>>,
    /// All handlers, with the crew's first handler first.
    pub handlers: Vec<Handler<W>>,
}

/// A desk without its work. Contracts see its inbox.
#[derive(Drop)]
struct Vacancy<W: Work> {
    inbox: Shared<Inbox<W::Item, Fresh<W>>>,
    seat: TakerSeat<W::Item, Fresh<W>>,
    past: Vec<W>,
}

impl<W: Work> Model for Vacancy<W> {
    ghost use Rattle.std.specs.Prelude.{◌≡◌, ◌≤◌, [], vec_capacity};
    ghost use Rattle.cb_crew.specs.Seat.{InboxState, opening_seat};

    ghost Value = { InboxState };

    ghost view = { λ a. a.inbox };

    ghost invariant = { λ a. (a.seat ≡ opening_seat a.inbox.name) × (a.past.items ≡ [])
        × (255 ≤ vec_capacity a.past) };
}

/// The inboxes of a crew. Each has its reader's seat and its vacancy.
#[derive(Drop)]
struct Lines<W: Work> {
    inboxes: Vec<Shared<Inbox<W::Item, Fresh<W>>>>,
    readers: Vec<ReaderSeat<W::Item, Fresh<W>>>,
    vacancies: Vec<Vacancy<W>>,
}

/// A crew that has no works yet. Contracts see the crew. It has all memory that the crew ever
/// needs.
#[derive(Drop)]
struct Unmanned<W: Work> {
    crew: Crew<W>,
    hand: Hand<Desk<W>>,
    readers: Vec<ReaderSeat<W::Item, Fresh<W>>>,
    vacancies: Vec<Vacancy<W>>,
    desks: Vec<Desk<W>>,
    handlers: Vec<Handler<W>>,
}

impl<W: Work> Model for Unmanned<W> {
    ghost use Rattle.std.specs.Prelude.{◌≡◌, ◌≤◌, [], length, vec_capacity};
    ghost use Rattle.cb_crew.specs.Crew.{CrewState, AreOpeningSeats};
    ghost use Rattle.cb_crew.specs.Unmanned.{IsOpeningHandOf};

    ghost Value = { CrewState };

    ghost view = { λ a. a.crew };

    ghost invariant = { λ a. IsOpeningHandOf a.crew a.hand × AreOpeningSeats a.crew a.readers.items
        × (a.vacancies.items ≡ a.crew.inboxes) × (a.desks.items ≡ [])
        × (length a.crew.inboxes ≤ vec_capacity a.desks) × (a.handlers.items ≡ [])
        × (a.crew.handlers ≤ vec_capacity a.handlers) };
}

impl<W: Work> Crew<W> {
    /// A crew with these works, one for each peer in their order. It has so many handlers, and
    /// inboxes of this capacity. All memory that the crew ever needs is allocated here.
    ///
    /// Fails only with `Fault::Memory`; the works then come back.
    pub fn new<R: Wait>(
        rt: &R,
        alloc: Global,
        works: Vec<W>,
        handlers: u16,
        capacity: usize,
    ) -> Result<NewCrew<W>, (Vec<W>, Fault)>
        requires peers { (1 ≤ length works.items) × (length works.items ≤ most_peers) }
        requires fresh { All (IsFresh W.given W.ticked W.is_closed W.is_whole) works.items }
        requires handlers { (1 ≤ handlers) × (handlers ≤ 16) }
        requires capacity { (1 ≤ capacity) × (capacity ≤ 1024) }
        ensures crew { IfOk result
            (λ made. IsNewCrew (length works.items) handlers capacity made.crew) }
        ensures labels { IfOk result (λ made. made.crew.labels ≡ map W.label works.items) }
        ensures seats { IfOk result (λ made. AreOpeningSeats made.crew made.readers.items) }
        ensures handlers { IfOk result
            (λ made. AreHandlersOf made.crew made.handlers.items × MadeNoTurn made.handlers.items) }
        ensures refused { IfErr result (λ back. (back.0.items ≡ works.items) × (back.1 ≡ Memory)) }
    {
        match Unmanned::new(alloc, &works, handlers, capacity) {
            Ok(unmanned) => Ok(unmanned.man(rt, alloc, works)),
            Err(fault) => Err((works, fault)),
        }
    }

    /// Puts the desk of each peer with its work into the ring. From then on the crew runs.
    fn place<R: Wait>(
        &self,
        rt: &R,
        hand: &mut Hand<Desk<W>>,
        vacancies: Vec<Vacancy<W>>,
        works: Vec<W>,
    )
        requires hand { IsOpeningHandOf self.now hand.old }
        requires vacancies { vacancies.items ≡ self.now.inboxes }
        requires works { (length works.items ≡ length self.now.inboxes)
            × All (IsFresh W.given W.ticked W.is_closed W.is_whole) works.items }
        requires labels { map W.label works.items ≡ self.now.labels }
        ensures { IsFreeHandOf self.now hand.new × StandsForAll hand.new }
    {
        for (vacancy, work) in vacancies.into_iter().zip(works) {
            self.ring.make(rt, hand, vacancy.fill(Fresh::new(work)));
        }
        self.ring.start(hand);
    }

    /// Makes all handlers out of the one hand that stands for them. The first handler gets the
    /// list.
    fn hire_all(
        &self,
        alloc: Global,
        mut hand: Hand<Desk<W>>,
        mut desks: Vec<Desk<W>>,
        mut handlers: Vec<Handler<W>>,
    ) -> Vec<Handler<W>>
        requires hand { IsFreeHandOf self.now hand × StandsForAll hand }
        requires desks { (desks.items ≡ []) × (length self.now.inboxes ≤ vec_capacity desks) }
        requires handlers { (handlers.items ≡ []) × (self.now.handlers ≤ vec_capacity handlers) }
        ensures { AreHandlersOf self.now result.items × MadeNoTurn result.items }
    {
        for _ in 1..self.handlers() {
            let hired = self.ring.hire(&mut hand);
            let list = mem::replace(&mut desks, Vec::new(alloc));
            handlers.push_reserved(Handler::new(hired, list));
        }
        handlers.push_reserved(Handler::new(hand, desks));
        handlers
    }
}

impl<W: Work> Vacancy<W> {
    /// The desk with this work.
    fn fill(self, work: Fresh<W>) -> Desk<W>
        ensures { result ≡ desk_state self (opening_seat self.name) work [] }
    {
        Desk::new(self.inbox, self.seat, work, self.past)
    }
}

impl<W: Work> Lines<W> {
    /// The empty inboxes of so many peers, each with its reader's seat and its vacancy. Fails only
    /// with `Fault::Memory`.
    fn new(alloc: Global, peers: u16, capacity: usize) -> Result<Lines<W>, Fault>
        requires { (1 ≤ capacity) × (capacity ≤ 1024) }
        ensures lines { IfOk result
            (λ made. AreLines peers capacity made.inboxes.items made.readers.items
            made.vacancies.items) }
        ensures memory { IsOkUnless result Memory }
    {
        let mut lines = Lines {
            inboxes: Vec::new(alloc),
            readers: Vec::new(alloc),
            vacancies: Vec::new(alloc),
        };
        for peer in 0..peers {
            let (inbox, reader, seat) = Inbox::new(alloc, peer, capacity)?;
            let inbox = Shared::new(alloc, inbox)?;
            let past = Vec::with_capacity(alloc, MOST_PAST)?;
            let vacancy = Vacancy {
                inbox: inbox.clone()?,
                seat,
                past,
            };
            lines.vacancies.push(vacancy)?;
            lines.inboxes.push(inbox)?;
            lines.readers.push(reader)?;
        }
        Ok(lines)
    }
}

/// The labels of these works. Fails only with `Fault::Memory`.
fn labels_of<W: Work>(alloc: Global, works: &[W]) -> Result<Vec<u64>, Fault>
    ensures labels { IfOk result (λ labels. labels.items ≡ map W.label works.now) }
    ensures memory { IsOkUnless result Memory }
{
    let mut labels = Vec::new(alloc);
    for work in works {
        labels.push(work.whose())?;
    }
    Ok(labels)
}

impl<W: Work> Unmanned<W> {
    /// A crew for these works, one for each peer, which come later. It has so many handlers, and
    /// inboxes of this capacity.
    ///
    /// Fails only with `Fault::Memory`.
    fn new(
        alloc: Global,
        works: &Vec<W>,
        handlers: u16,
        capacity: usize,
    ) -> Result<Unmanned<W>, Fault>
        requires peers { (1 ≤ length works.now.items)
            × (length works.now.items ≤ most_peers) }
        requires handlers { (1 ≤ handlers) × (handlers ≤ 16) }
        requires capacity { (1 ≤ capacity) × (capacity ≤ 1024) }
        ensures crew { IfOk result
            (λ made. IsNewCrew (length works.now.items) handlers capacity made) }
        ensures labels { IfOk result (λ made. made.labels ≡ map W.label works.now.items) }
        ensures memory { IsOkUnless result Memory }
    {
        let peers = works.len() as u16;
        let labels = labels_of(alloc, works.as_slice())?;
        let (ring, hand) = Ring::new(alloc, peers, handlers)?;
        let lines = Lines::new(alloc, peers, capacity)?;
        let desks = Vec::with_capacity(alloc, usize::from(peers))?;
        let hired = Vec::with_capacity(alloc, usize::from(handlers))?;
        Ok(Unmanned {
            crew: Crew {
                ring,
                inboxes: lines.inboxes,
                handlers,
                labels,
            },
            hand,
            readers: lines.readers,
            vacancies: lines.vacancies,
            desks,
            handlers: hired,
        })
    }

    /// The crew with these works. It allocates nothing.
    fn man<R: Wait>(self, rt: &R, alloc: Global, works: Vec<W>) -> NewCrew<W>
        requires works { (length works.items ≡ length self.inboxes)
            × All (IsFresh W.given W.ticked W.is_closed W.is_whole) works.items }
        requires labels { map W.label works.items ≡ self.labels }
        ensures crew { result.crew ≡ self }
        ensures seats { AreOpeningSeats result.crew result.readers.items }
        ensures handlers { AreHandlersOf result.crew result.handlers.items
            × MadeNoTurn result.handlers.items }
    {
        let crew = self.crew;
        let mut hand = self.hand;
        crew.place(rt, &mut hand, self.vacancies, works);
        let handlers = crew.hire_all(alloc, hand, self.desks, self.handlers);
        NewCrew {
            crew,
            readers: self.readers,
            handlers,
        }
    }
}
