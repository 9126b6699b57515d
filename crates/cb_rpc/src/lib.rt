//! JSON-RPC 1.x and 2.0 as Bitcoin Core's daemon speaks it: what answers the text of a request, one
//! call or a list of calls; what a node tells a client, as values; and how these are written as
//! JSON under that daemon's names and in its forms.
#![tactic(auto)]

mod agent;
mod asking;
mod block;
mod chain;
mod header;
mod listing;
mod mempool;
mod network;
mod peer;
mod reading;
mod responding;
mod response;
mod spending;
mod telling;
mod told;
mod tx;
mod writing;

pub use asking::CallHandler;
pub use listing::MOST_REQUESTS;
pub use peer::{ids_are_undone, peer_id, slot_of_id};
pub use responding::respond;
pub use response::Response;
pub use telling::put_told;
pub use told::{
    CallResult, ChainReport, EntryReport, HeaderReport, JudgedReport, MempoolReport, NetworkReport,
    OutputReport, TipReport, TipStatus, TotalsReport, TxPlace, TxReport,
};
