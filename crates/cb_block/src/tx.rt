ghost use Rattle.std.specs.Prelude.{◌≡◌, length};

use crate::script::Script;
use cb_base::Hash256;
use std::marker::Model;

/// An outpoint: the txid of a transaction and the index of one of its outputs.
#[derive(Clone, Copy, Debug, PartialEq, Eq, PartialOrd, Ord, Hash)]
pub struct OutPoint {
    pub txid: Hash256,
    pub index: u32,
}

/// An input: the output that it spends, a script and a sequence number.
#[derive(Drop)]
pub struct TxIn {
    pub prev: OutPoint,
    pub script: Script,
    pub sequence: u32,
}

/// An output: a value in satoshis and a script.
#[derive(Drop)]
pub struct TxOut {
    pub value: i64,
    pub script: Script,
}

/// The inputs of a transaction. Contracts see the list.
#[derive(Drop)]
pub struct Inputs {
    list: Vec<TxIn>,
}

impl Model for Inputs {
    ghost use Rattle.std.specs.Prelude.{List};
    ghost use Rattle.cb_block.specs.declared.tx.TxIn.{TxIn};

    ghost Value = { List TxIn };

    ghost view = { λ inputs. inputs.list.items };
}

impl Inputs {
    /// The list as the inputs of a transaction.
    pub fn new(list: Vec<TxIn>) -> Inputs
        ensures { result ≡ list.items }
    {
        Inputs { list }
    }

    /// The inputs in order.
    pub fn as_slice(&self) -> &[TxIn]
        ensures { result.now ≡ self.now }
    {
        self.list.as_slice()
    }

    /// The list, as the vector that this owned.
    pub fn into_vec(self) -> Vec<TxIn>
        ensures { result.items ≡ self }
    {
        self.list
    }
}

/// The outputs of a transaction. Contracts see the list.
#[derive(Drop)]
pub struct Outputs {
    list: Vec<TxOut>,
}

impl Model for Outputs {
    ghost use Rattle.std.specs.Prelude.{List};
    ghost use Rattle.cb_block.specs.declared.tx.TxOut.{TxOut};

    ghost Value = { List TxOut };

    ghost view = { λ outputs. outputs.list.items };
}

impl Outputs {
    /// The list as the outputs of a transaction.
    pub fn new(list: Vec<TxOut>) -> Outputs
        ensures { result ≡ list.items }
    {
        Outputs { list }
    }

    /// The outputs in order.
    pub fn as_slice(&self) -> &[TxOut]
        ensures { result.now ≡ self.now }
    {
        self.list.as_slice()
    }

    /// The list, as the vector that this owned.
    pub fn into_vec(self) -> Vec<TxOut>
        ensures { result.items ≡ self }
    {
        self.list
    }
}

/// A transaction, without witnesses.
#[derive(Drop)]
pub struct Tx {
    pub version: i32,
    pub inputs: Inputs,
    pub outputs: Outputs,
    pub lock_time: u32,
}
