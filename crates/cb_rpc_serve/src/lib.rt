//! An HTTP service that answers JSON-RPC as Bitcoin Core's daemon does: only POST, only JSON, and
//! only to who knows the password. Its threads serve the connections, and hand each call to the one
//! thread that answers calls.
#![tactic(auto)]

mod asked;
mod connection_timer;
mod conversing;
mod password;
mod refusal;
mod refusing;
mod request_handler;
mod rpc;
mod server;
mod server_state;
mod settings;
mod start_fault;
mod working;

pub use asked::Asked;
pub use password::Password;
pub use refusal::{HttpRefusal, why_refused};
pub use rpc::Rpc;
pub use server::Server;
pub use settings::RpcSettings;
pub use start_fault::StartFault;
