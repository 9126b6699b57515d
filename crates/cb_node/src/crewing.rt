ghost use Rattle.std.specs.Prelude.{◌≡◌, ◌≤◌, [], length, map, vec_capacity, All, IfOk, IsOkUnless};
ghost use Rattle.std.specs.List.{AllZip, range_with_len};
ghost use Rattle.cb_base.specs.declared.fault.Fault.TheVariants.{Memory};
ghost use Rattle.cb_crew.specs.Crew.{AreHandlersOf, AreOpeningSeats, HasPlace, inbox_of};
ghost use Rattle.cb_crew.specs.Ring.{most_peers};
ghost use Rattle.cb_peers.specs.Reading.{QueuedWhatItRead};
ghost use Rattle.cb_node.specs.Linking.{link_label};
ghost use Rattle.cb_node.specs.Slot.{AreSlotsOf, AreThreadsOf, names_in, new_slot};

use crate::fault::NodeFault;
use crate::next_connection::NextConnection;
use crate::slot::{Common, Slot};
use cb_base::{Fault, Shared};
use cb_crew::{Crew, Fresh, Handler, NewCrew, ReaderSeat, ReaderSide, Work};
use cb_peers::{Backlogs, CloseEnded, Link, Links, NodeBytes};
use cb_service::{HandlerSetup, HandlerThread, Signals};
use cb_session::Input;
use std::alloc::Global;
use std::marker::{Copy, Send};
use std::sync::Wait;
use std::thread::Threads;

/// How many marks a slot's inbox holds at most, and at least.
const MOST_MARKS: usize = 256;

const FEWEST_MARKS: usize = 16;

/// How many marks the inboxes of a node hold together. A place takes as much as a connection's
/// work, so this is most of what a node takes at its start.
const ALL_MARKS: usize = 16_384;

/// How many marks a handler takes in a turn at most.
const BUDGET: u32 = 64;

/// A crew with slots for its peers, before its handlers have threads.
#[derive(Drop)]
pub struct Crewed<W: Work<Item = Input>> {
    /// What the slots share.
    pub common: Common<W>,
    /// The slots of all peers, in their order. None ever had a socket.
    pub slots: Vec<Slot<W>>,
    /// All handlers, with the crew's first handler first.
    pub handlers: Vec<Handler<W>>,
    /// An empty list with room for all handlers.
    pub back: Vec<Handler<W>>,
    /// An empty list with room for the sides of all slots.
    pub sides: Vec<ReaderSide<Input, Fresh<W>>>,
    ghost are_slots: { AreSlotsOf common.crew slots.items },
    ghost are_new: { slots.items ≡ map new_slot common.crew.inboxes },
    ghost has_back: { (back.items ≡ []) × (length handlers.items ≤ vec_capacity back) },
    ghost has_sides: { (sides.items ≡ []) × (length slots.items ≤ vec_capacity sides) },
}

/// Moves a value to the heap, with one owner. Fails only with `Fault::Memory`.
pub fn shared<T: Drop>(alloc: Global, value: T) -> Result<Shared<T>, Fault>
    ensures same { IfOk result (λ made. made ≡ value) }
    ensures memory { IsOkUnless result Memory }
{
    match Shared::new(alloc, value) {
        Ok(made) => Ok(made),
        Err(failed) => {
            drop(failed);
            Err(Fault::Memory)
        }
    }
}

/// A crew, and the slots of its peers, whose first connections are these. Fails only with
/// `Fault::Memory`.
pub fn crew_slots<W: Work<Item = Input>, R: Wait>(
    rt: &R,
    alloc: Global,
    firsts: Vec<NextConnection<W>>,
    handlers: u16,
) -> Result<Crewed<W>, Fault>
    requires firsts { (1 ≤ length firsts.items) × (length firsts.items ≤ most_peers) }
    requires in_order { map (λ first. first.link.peer) firsts.items
        ≡ range_with_len 0 (length firsts.items) }
    requires handlers { (1 ≤ handlers) × (handlers ≤ 16) }
    // The work at a slot's place is that of the slot's link.
    ensures labels { IfOk result (λ crewed. crewed.common.crew.labels
        ≡ map (λ first. link_label first.link) firsts.items) }
    ensures count { IfOk result
        (λ crewed. length crewed.common.crew.inboxes ≡ length firsts.items) }
    ensures handlers { IfOk result
        (λ crewed. AreHandlersOf crewed.common.crew crewed.handlers.items
        × (crewed.common.crew.handlers ≡ handlers)) }
    ensures memory { IsOkUnless result Memory }
{
    let (made, links) = new_crew(rt, alloc, firsts, handlers)?;
    let NewCrew {
        crew,
        readers,
        handlers,
    } = made;
    let sides = Vec::with_capacity(alloc, readers.len())?;
    let back = Vec::with_capacity(alloc, handlers.len())?;
    let slots = slots_of(alloc, &crew, readers, links)?;
    Ok(Crewed {
        common: common_of(alloc, crew)?,
        slots,
        handlers,
        back,
        sides,
    })
}

/// How many marks the inbox of each of so many slots holds: 256 of up to 64 slots, and fewer of
/// more.
fn capacity_for(slots: usize) -> usize
    requires { 1 ≤ slots }
    ensures { (1 ≤ result) × (result ≤ 1024) }
{
    (ALL_MARKS / slots).clamp(FEWEST_MARKS, MOST_MARKS)
}

/// A crew with the works of these connections, and their links. Fails only with `Fault::Memory`.
fn new_crew<W: Work<Item = Input>, R: Wait>(
    rt: &R,
    alloc: Global,
    firsts: Vec<NextConnection<W>>,
    handlers: u16,
) -> Result<(NewCrew<W>, Vec<Shared<Link>>), Fault>
    requires firsts { (1 ≤ length firsts.items) × (length firsts.items ≤ most_peers) }
    requires handlers { (1 ≤ handlers) × (handlers ≤ 16) }
    ensures crew { IfOk result (λ made. (length made.0.crew.inboxes ≡ length firsts.items)
        × (made.0.crew.handlers ≡ handlers)) }
    ensures seats { IfOk result (λ made. AreOpeningSeats made.0.crew made.0.readers.items) }
    ensures handlers { IfOk result (λ made. AreHandlersOf made.0.crew made.0.handlers.items) }
    ensures labels { IfOk result
        (λ made. made.0.crew.labels ≡ map (λ first. link_label first.link) firsts.items) }
    ensures links { IfOk result (λ made. length made.1.items ≡ length firsts.items) }
    ensures in_order { IfOk result (λ made. map (λ link. link.peer) made.1.items
        ≡ map (λ first. first.link.peer) firsts.items) }
    ensures memory { IsOkUnless result Memory }
{
    let mut works = Vec::new(alloc);
    let mut links = Vec::new(alloc);
    for first in firsts {
        works.push(first.work.into_work())?;
        links.push(first.link)?;
    }
    let capacity = capacity_for(works.len());
    match Crew::new(rt, alloc, works, handlers, capacity) {
        Ok(made) => Ok((made, links)),
        Err((_, fault)) => Err(fault),
    }
}

/// What the slots of this crew share. Fails only with `Fault::Memory`.
fn common_of<W: Work<Item = Input>>(alloc: Global, crew: Crew<W>) -> Result<Common<W>, Fault>
    ensures crew { IfOk result (λ common. common.crew ≡ crew) }
    ensures memory { IsOkUnless result Memory }
{
    let (peers, handlers) = (crew.peers(), crew.handlers());
    Ok(Common {
        signals: Shared::new(alloc, Signals::new(alloc, peers, handlers)?)?,
        backlogs: Shared::new(alloc, Backlogs::new(alloc, peers)?)?,
        crew: Shared::new(alloc, crew)?,
    })
}

/// The slots of a new crew with these seats, none of which ever had a socket.
#[tactic(auto, using(crate::proofs::Placing::placing_none))]
fn slots_of<W: Work<Item = Input>>(
    alloc: Global,
    crew: &Crew<W>,
    seats: Vec<ReaderSeat<Input, Fresh<W>>>,
    links: Vec<Shared<Link>>,
) -> Result<Vec<Slot<W>>, Fault>
    requires seats { AreOpeningSeats crew.now seats.items }
    requires links { length links.items ≡ length seats.items }
    requires in_order { map (λ link. link.peer) links.items
        ≡ range_with_len 0 (length links.items) }
    ensures slots { IfOk result (λ slots. AreSlotsOf crew.now slots.items
        × (slots.items ≡ map new_slot crew.now.inboxes)) }
    ensures memory { IsOkUnless result Memory }
{
    let mut slots = Vec::with_capacity(alloc, usize::from(crew.peers()))?;
    let mut number = 0u16;
    for (seat, link) in seats.into_iter().zip(links) {
        let inbox = crew.inbox(number);
        slots.push_reserved(Slot::new(inbox, seat, link));
        number += 1;
    }
    Ok(slots)
}

/// Starts a thread for each handler. If one can't be started, waits until those return that were.
/// Where `prompt` is set, they have peers told of a new tip at once.
pub fn start_handlers<
    W: Work<Item = Input> + Send + 'static,
    R: Threads + Wait + Copy + Send + Drop + 'static,
>(
    rt: &R,
    alloc: Global,
    common: &Common<W>,
    links: &Shared<Links>,
    prompt: bool,
    handlers: Vec<Handler<W>>,
) -> Result<Vec<HandlerThread<W>>, NodeFault>
    requires { AreHandlersOf common.now.crew handlers.items }
    ensures { IfOk result (λ threads. AreThreadsOf common.now.crew threads.items
        × (length threads.items ≡ length handlers.items)) }
{
    let setup = HandlerSetup {
        budget: BUDGET,
        hook: CloseEnded {
            backlogs: common.backlogs.clone()?,
            links: links.clone()?,
            signals: common.signals.clone()?,
            prompt,
        },
    };
    let (crew, signals) = (&common.crew, &common.signals);
    match cb_service::start_handlers(rt, alloc, crew, signals, &setup, handlers) {
        Ok(threads) => Ok(threads),
        Err(refusal) => Err(NodeFault::from(refusal)),
    }
}

/// The sides of these slots, in the given empty list, and what their sockets gave. Waits for the
/// threads of readers. It takes no memory: the list must have room.
pub fn sides_of<W: Work<Item = Input>, R: Threads>(
    rt: &R,
    slots: Vec<Slot<W>>,
    sides: Vec<ReaderSide<Input, Fresh<W>>>,
) -> (Vec<ReaderSide<Input, Fresh<W>>>, NodeBytes)
    requires room { (sides.items ≡ []) × (length slots.items ≤ vec_capacity sides) }
    ensures inboxes { map inbox_of result.0.items ≡ names_in slots.items }
    ensures places { All HasPlace result.0.items }
    ensures read { AllZip QueuedWhatItRead result.1 result.0.items }
{
    let mut sides = sides;
    let mut read = NodeBytes::nothing();
    for slot in slots {
        let (side, bytes) = slot.into_side(rt);
        sides.push_reserved(side);
        read.add(&bytes);
    }
    (sides, read)
}
