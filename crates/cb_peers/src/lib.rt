//! The connections of peers, over any work: how one is read and written, by what its threads are
//! told to stop, and what a crew that served all of them promises in the end.
#![tactic(auto)]

mod backlogs;
mod finishing;
mod inbox_seat;
mod link;
mod node_bytes;
mod outbox;
mod reading;
mod slot_bytes;
mod socket;
mod stopping;
mod telling;
mod threads;

pub use backlogs::Backlogs;
pub use finishing::finish_peers;
pub use inbox_seat::{InboxSeat, MOST_BYTES};
pub use link::{CloseEnded, Link, Links, OutboxSink, TipNews};
pub use node_bytes::NodeBytes;
pub use outbox::{Outbox, WriterEnd};
pub use reading::{Left, read_connection};
pub use slot_bytes::SlotBytes;
pub use socket::{Socket, SocketBytes, SocketReader};
pub use stopping::ConnectionStop;
pub use telling::TICKS_A_HANDLER;
pub use threads::{SocketReading, start_threads};
