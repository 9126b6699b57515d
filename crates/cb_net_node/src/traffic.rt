//! How many messages were sent, and of how many bytes, by their commands.
ghost use Rattle.std.specs.Prelude.{◌≡◌, ◌+◌, ◌<◌, length, replicate};
ghost use Rattle.cb_wire.specs.Grammar.{payload_text};
ghost use Rattle.cb_net_node.specs.Commands.{row_of};
ghost use Rattle.cb_net_node.specs.Traffics.{AddsRows, Counts, nothing, rows_of, sum_of, with_more};

use crate::transit::wire_size;
use cb_wire::{BoundedMessage, Message};

/// How many commands there are: those that are known, and all others as one.
pub const COMMANDS: usize = 17;

/// The names of the commands, in the order of the rows.
pub const NAMES: [&str; COMMANDS] = [
    "version",
    "verack",
    "ping",
    "pong",
    "sendheaders",
    "sendcmpct",
    "inv",
    "getdata",
    "notfound",
    "headers",
    "getheaders",
    "tx",
    "block",
    "cmpctblock",
    "getblocktxn",
    "blocktxn",
    "other",
];

/// The messages of one command.
#[derive(Clone, Copy, Debug, PartialEq, Eq, Drop)]
pub struct Row {
    /// How many were sent.
    pub messages: u64,
    /// How many bytes they have, with their envelopes.
    pub bytes: u64,
}

impl Row {
    /// Counts so many messages and bytes besides.
    fn add(&mut self, more: &Row)
        ensures { self.new ≡ with_more self.old more.now }
    {
        self.messages = self.messages.saturating_add(more.messages);
        self.bytes = self.bytes.saturating_add(more.bytes);
    }
}

/// Nothing was sent.
const NONE: Row = Row {
    messages: 0,
    bytes: 0,
};

/// What was sent, by commands.
#[derive(Clone, Copy, Debug, PartialEq, Eq, Drop)]
pub struct Traffic {
    rows: [Row; COMMANDS],
}

impl Traffic {
    /// Nothing was sent.
    pub fn new() -> Traffic
        ensures { rows_of result ≡ replicate 17 nothing }
    {
        Traffic {
            rows: [NONE; COMMANDS],
        }
    }

    /// The rows, in the order of `NAMES`.
    pub fn rows(&self) -> &[Row]
        ensures rows { result.now ≡ rows_of self.now }
        ensures all { length result.now ≡ 17 }
    {
        self.rows.as_slice()
    }

    /// All messages, whatever their commands.
    pub fn sum(&self) -> Row
        ensures { result ≡ sum_of (rows_of self.now) }
    {
        let mut sum = NONE;
        for row in &self.rows {
            sum.add(row);
        }
        sum
    }

    /// Counts what was sent besides.
    pub fn add(&mut self, other: &Traffic)
        ensures { AddsRows other.now self.old self.new }
    {
        for place in 0..COMMANDS {
            let more = other.rows[place];
            self.rows[place].add(&more);
        }
    }

    /// Counts a message: one more in the row of its command, with the bytes of its payload and the
    /// 24 of its header.
    pub fn count(&mut self, message: &BoundedMessage)
        ensures { Counts (row_of message.now) (length (payload_text message.now) + 24)
            self.old self.new }
    {
        self.count_at(row_of(message.message()), wire_size(message));
    }

    /// Counts a message of so many bytes in the row at a place.
    fn count_at(&mut self, place: usize, bytes: u64)
        requires { place < 17 }
        ensures { Counts place bytes self.old self.new }
    {
        self.rows[place].add(&Row { messages: 1, bytes });
    }
}

/// The row of a message, by its command.
fn row_of(message: &Message) -> usize
    ensures row { result ≡ row_of message.now }
    ensures within { result < 17 }
{
    match message {
        Message::Version(_) => 0,
        Message::Verack => 1,
        Message::Ping(_) => 2,
        Message::Pong(_) => 3,
        Message::SendHeaders => 4,
        Message::SendCmpct(_) => 5,
        Message::Inv(_) => 6,
        Message::GetData(_) => 7,
        Message::NotFound(_) => 8,
        Message::Headers(_) => 9,
        Message::GetHeaders(_) => 10,
        Message::Tx(_) => 11,
        Message::Block(_) => 12,
        Message::CmpctBlock(_) => 13,
        Message::GetBlockTxn(_) => 14,
        Message::BlockTxn(_) => 15,
        Message::Unknown(_, _) => 16,
    }
}
