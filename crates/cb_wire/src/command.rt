ghost use Rattle.std.specs.Prelude.{◌≡◌, ◌↔◌, IsTrue, codes, string_bytes, IfOk, IsOkUnless};
ghost use Rattle.cb_base.specs.declared.fault.Fault.TheVariants.{Memory};

use crate::envelope::is_command;
use cb_base::Fault;
use std::alloc::Global;
use std::marker::Model;

/// The known commands: this program reads and writes their payloads.
#[derive(Clone, Copy, PartialEq, Eq)]
pub enum Command {
    Version,
    Verack,
    Ping,
    Pong,
    SendHeaders,
    SendCmpct,
    Inv,
    GetData,
    NotFound,
    Headers,
    GetHeaders,
    Tx,
    Block,
    CmpctBlock,
    GetBlockTxn,
    BlockTxn,
}

impl Command {
    ghost use Rattle.cb_wire.specs.Command.{IsCommand, command_name, known_command};

    /// Whether a name has the form of a command, as `decode` requires: 1 to 12 bytes from the space
    /// to the tilde.
    pub fn is_name(name: &str) -> bool
        ensures { IsTrue result ↔ IsCommand name.now }
    {
        is_command(name.as_bytes())
    }

    /// The known command of this name, if there is one.
    pub fn named(name: &str) -> Option<Command>
        ensures { result ≡ known_command name.now }
    {
        match name {
            "version" => Some(Command::Version),
            "verack" => Some(Command::Verack),
            "ping" => Some(Command::Ping),
            "pong" => Some(Command::Pong),
            "sendheaders" => Some(Command::SendHeaders),
            "sendcmpct" => Some(Command::SendCmpct),
            "inv" => Some(Command::Inv),
            "getdata" => Some(Command::GetData),
            "notfound" => Some(Command::NotFound),
            "headers" => Some(Command::Headers),
            "getheaders" => Some(Command::GetHeaders),
            "tx" => Some(Command::Tx),
            "block" => Some(Command::Block),
            "cmpctblock" => Some(Command::CmpctBlock),
            "getblocktxn" => Some(Command::GetBlockTxn),
            "blocktxn" => Some(Command::BlockTxn),
            _ => None,
        }
    }

    /// The name, as it is written in an envelope.
    pub fn name(&self) -> &'static str
        ensures { result.now ≡ command_name self.now }
    {
        match self {
            Command::Version => "version",
            Command::Verack => "verack",
            Command::Ping => "ping",
            Command::Pong => "pong",
            Command::SendHeaders => "sendheaders",
            Command::SendCmpct => "sendcmpct",
            Command::Inv => "inv",
            Command::GetData => "getdata",
            Command::NotFound => "notfound",
            Command::Headers => "headers",
            Command::GetHeaders => "getheaders",
            Command::Tx => "tx",
            Command::Block => "block",
            Command::CmpctBlock => "cmpctblock",
            Command::GetBlockTxn => "getblocktxn",
            Command::BlockTxn => "blocktxn",
        }
    }
}

/// The name of an unknown command: 1 to 12 bytes from the space to the tilde.
///
/// For the prover its value is its bytes.
#[derive(Drop)]
pub struct UnknownName {
    text: String,
}

impl Model for UnknownName {
    ghost use Rattle.std.specs.Prelude.{ℕ, List, string_bytes};

    ghost Value = { List ℕ };

    ghost view = { λ name. string_bytes name.text };

    ghost use Rattle.cb_wire.specs.Command.{IsUnknownName};

    ghost invariant = { λ name. IsUnknownName (string_bytes name.text) };
}

impl UnknownName {
    ghost use Rattle.cb_wire.specs.Command.{IsUnknownName};

    /// Whether `new` accepts this name: it has the form of a command and isn't the name of a known
    /// one.
    pub fn accepts(name: &str) -> bool
        ensures { IsTrue result ↔ IsUnknownName name.now }
    {
        Command::is_name(name) && Command::named(name).is_none()
    }

    /// Copies a name that has the form of a command and isn't the name of a known one.
    ///
    /// Fails only with `Fault::Memory`.
    pub fn new(alloc: Global, name: &str) -> Result<UnknownName, Fault>
        requires { IsUnknownName name.now }
        ensures name { IfOk result (λ unknown. unknown ≡ name.now) }
        ensures memory { IsOkUnless result Memory }
    {
        let text = String::from_str(alloc, name)?;
        Ok(UnknownName { text })
    }

    /// The name as text.
    pub fn as_str(&self) -> &str
        ensures name { result.now ≡ self.now }
        ensures form { IsUnknownName self.now }
    {
        self.text.as_str()
    }

    /// An equal name. Fails only with `Fault::Memory`.
    pub fn copy(&self, alloc: Global) -> Result<UnknownName, Fault>
        ensures equal { IfOk result (λ copy. copy ≡ self.now) }
        ensures memory { IsOkUnless result Memory }
    {
        UnknownName::new(alloc, self.as_str())
    }
}
