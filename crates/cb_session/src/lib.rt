//! One peer's connection from its first byte to its end: a conversation between the peer's stream,
//! its session and the hall. The hall is what Bitcoin Core keeps in ChainstateManager and
//! CTxMemPool.
//!
//! In a crew the stream has a thread of its own. It reads the stream and puts the items into the
//! peer's inbox (`read_loop`), for the handlers to take.
#![tactic(auto)]

mod conversation;
mod hearing;
mod inbox_reader;
mod input;
mod parts;
mod putting;
mod read_from;
mod reading;
mod seat;
mod serving;
mod stop;
mod tape;

pub use cb_base::{In, Out, ReadEnd, Sink, SinkFailure, Source};
pub use cb_hall::{Answer, Badge, Entry, Hall, Question};
pub use cb_peer::{CloseReason, Event, Pending, Session, Settings, Stage, State, Subject};
pub use cb_peer_state::{MessageSink, Outgoing, WriteEnd, WriteFault, write_out};
pub use cb_trace::{Counts, Oracle, Trace, TraceEntry};
pub use conversation::Conversation;
pub use inbox_reader::{WasRead, read_loop};
pub use input::Input;
pub use parts::{Begun, begin_by, lose_by};
pub use read_from::ReadFrom;
pub use seat::Seat;
pub use serving::{Served, serve, serve_by};
pub use stop::Stop;
