ghost use Rattle.std.specs.Prelude.{◌≡◌};

use crate::outgoing::Outgoing;
use std::marker::Model;
use std::snapshot::Snapshot;

/// That a message was taken, by a queue or by a sink of bytes. None is made otherwise, so who has
/// one of a message didn't drop it. Contracts see the message, and how many bytes of it were
/// written, as far as the sink can tell.
#[derive(Drop)]
pub struct Receipt {
    message: Snapshot<Outgoing>,
    written: u64,
}

impl Model for Receipt {
    ghost use Rattle.cb_peer_state.specs.Receipt.{ReceiptState};

    ghost Value = { ReceiptState };

    ghost view = { λ taken. record { message = taken.message.value; written = taken.written } };
}

impl Receipt {
    /// This message was taken, and so many bytes of it were written.
    pub(crate) fn new(message: &Outgoing, written: u64) -> Receipt
        ensures message { result.message ≡ message.now }
        ensures written { result.written ≡ written }
    {
        Receipt {
            message: Snapshot::of(message),
            written,
        }
    }

    /// How many bytes were written, as far as the sink can tell.
    pub fn written(&self) -> u64
        ensures { result ≡ self.now.written }
    {
        self.written
    }
}
