ghost use Rattle.std.specs.Prelude.{◌≡◌, ◌≤◌};
ghost use Rattle.cb_session.specs.Input.{item_payload, payload_of};

use cb_base::{Fault, Shared};
use cb_wire::Item;

/// What a reader puts into its peer's inbox. Giving one to a session takes no memory.
#[derive(Drop)]
pub enum Input {
    /// An item of the peer's stream: a message, or one that couldn't be read.
    Said(Shared<Item>),
    /// The peer's stream has a framing fault, such as wrong network magic (`BadMagic`). No input
    /// follows.
    Broken(Fault),
    /// Memory ran out, and nothing more is read. No input follows.
    NoMemory,
}

impl Input {
    /// How many payload bytes it stands for, at most 4,000,000: those of its message. Any other
    /// input stands for none.
    pub fn payload_len(&self) -> u64
        ensures payload { result ≡ payload_of self.now }
        ensures limit { result ≤ 4000000 }
    {
        match self {
            Input::Said(item) => item_len(item),
            Input::Broken(_) | Input::NoMemory => 0,
        }
    }
}

/// The number of payload bytes of an item's message, at most 4,000,000.
fn item_len(item: &Item) -> u64
    ensures payload { result ≡ item_payload item.now }
    ensures limit { result ≤ 4000000 }
{
    match item {
        Item::Good(message) => message.payload_len(),
        Item::Damaged | Item::Bad(_, _) => 0,
    }
}
