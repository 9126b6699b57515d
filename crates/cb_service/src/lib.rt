//! The threads of a crew, over any work. Each handler's thread gives items to works. Each peer's
//! reader has a thread that queues items in the peer's inbox, by whatever code the caller gives.
//! The threads outlive the calls that start them, and hand back what they own.
#![tactic(auto)]

mod handling;
mod promises;
mod queueing;
mod reader;
mod side;
mod signals;
mod sleeper;
mod starting;
mod thread_fault;

pub use handling::{AfterTurn, HandlerSetup, Nothing};
pub use promises::{
    HandlerThread, OfCrew, OfReader, ReaderEnd, ReaderThread, join_handler, join_handlers,
    join_reader,
};
pub use queueing::{MOST_QUEUED, Unopened, end, offer, offer_end, offer_open, open, put};
pub use reader::{Account, Reader, Untold};
pub use side::CountedSide;
pub use signals::Signals;
pub use sleeper::Sleeper;
pub use starting::{NoHandler, NoReader, start_handler, start_handlers, start_reader};
pub use thread_fault::ThreadFault;
