ghost use Rattle.std.specs.Prelude.{◌≡◌, length};

use crate::header::Header;
use crate::tx::Tx;
use cb_base::Shared;
use std::marker::Model;

/// The transactions of a block. Each of them may have other owners. Contracts see the list.
#[derive(Drop)]
pub struct Txs {
    list: Vec<Shared<Tx>>,
}

impl Model for Txs {
    ghost use Rattle.std.specs.Prelude.{List};
    ghost use Rattle.cb_block.specs.declared.tx.Tx.{Tx};

    ghost Value = { List Tx };

    ghost view = { λ txs. txs.list.items };
}

impl Txs {
    /// The list as the transactions of a block.
    pub fn new(list: Vec<Shared<Tx>>) -> Txs
        ensures { result ≡ list.items }
    {
        Txs { list }
    }

    /// The transactions in order.
    pub fn as_slice(&self) -> &[Shared<Tx>]
        ensures { result.now ≡ self.now }
    {
        self.list.as_slice()
    }

    /// The list, as the vector that this owned.
    pub fn into_vec(self) -> Vec<Shared<Tx>>
        ensures { result.items ≡ self }
    {
        self.list
    }
}

/// A header and transactions. Nothing says yet that the transactions are those of the header:
/// `sound` checks that.
#[derive(Drop)]
pub struct Block {
    pub header: Header,
    pub txs: Txs,
}
