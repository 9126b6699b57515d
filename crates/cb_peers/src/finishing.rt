ghost use Rattle.cb_crew.specs.Crew.{AreHandlersOf, AreSidesOf};
ghost use Rattle.cb_peers.specs.Headline.{IsHeadline};

use cb_crew::{Crew, Desk, Fresh, Handler, ReaderSide};
use cb_peer_state::MessageSink;
use cb_session::Input;
use cb_trace::Oracle;
use cb_work::{Flags, PeerWork};
use std::sync::Wait;

/// Ends a crew of peers' sessions, once no thread works on it any more: serves all that is queued,
/// ends each connection that lasts, and serves its end. Returns the desks in the order of their
/// peers.
///
/// `sides` must have the reader's side of each peer, in their order. `handlers` must have all
/// handlers, with the crew's first handler first.
///
/// Promises for each connection (`IsHeadline`): the items processed are a prefix of those that its
/// reader queued, each once, in order, and none after its disconnect. Its session is the fold of
/// its trace on one thread. What was written is a prefix of the text of what that fold sends. As
/// many answers were logged as its badge counts. Every block that was given to the hall is the only
/// sound transaction list under its header, unless hashes collide.
pub fn finish_peers<S: MessageSink + Drop, H: Oracle + Drop, F: Flags, R: Wait>(
    rt: &R,
    crew: &Crew<PeerWork<S, H, F>>,
    sides: Vec<ReaderSide<Input, Fresh<PeerWork<S, H, F>>>>,
    handlers: Vec<Handler<PeerWork<S, H, F>>>,
) -> Vec<Desk<PeerWork<S, H, F>>>
    requires sides { AreSidesOf crew.now sides.items }
    requires handlers { AreHandlersOf crew.now handlers.items }
    ensures { IsHeadline S.contents crew.now sides.items result.items }
{
    crew.finish(rt, sides, handlers)
}
