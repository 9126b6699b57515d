//! Equality of transactions and blocks.
use crate::same::Same;
use crate::same_lists::same_list;
use cb_block::{Block, Script, SoundBlock, Tx, TxIn, TxOut};
use cb_compact::{NamedTx, Pair};
use cb_pool::Candidate;
use cb_state::BoundedBlock;

impl Same for Script {
    fn same(&self, other: &Script) -> bool {
        self.as_slice() == other.as_slice()
    }
}

impl Same for TxIn {
    fn same(&self, other: &TxIn) -> bool {
        self.prev.same(&other.prev)
            && self.sequence == other.sequence
            && self.script.same(&other.script)
    }
}

impl Same for TxOut {
    fn same(&self, other: &TxOut) -> bool {
        self.value == other.value && self.script.same(&other.script)
    }
}

impl Same for Tx {
    fn same(&self, other: &Tx) -> bool {
        self.version == other.version
            && self.lock_time == other.lock_time
            && same_list(self.inputs.as_slice(), other.inputs.as_slice())
            && same_list(self.outputs.as_slice(), other.outputs.as_slice())
    }
}

impl Same for Block {
    fn same(&self, other: &Block) -> bool {
        self.header.same(&other.header) && same_list(self.txs.as_slice(), other.txs.as_slice())
    }
}

impl Same for SoundBlock {
    fn same(&self, other: &SoundBlock) -> bool {
        self.block().same(other.block())
    }
}

impl Same for BoundedBlock {
    fn same(&self, other: &BoundedBlock) -> bool {
        self.block().same(other.block())
    }
}

impl Same for Candidate {
    fn same(&self, other: &Candidate) -> bool {
        self.tx().same(other.tx())
    }
}

impl Same for NamedTx {
    fn same(&self, other: &NamedTx) -> bool {
        self.tx().same(other.tx())
    }
}

impl Same for Pair {
    fn same(&self, other: &Pair) -> bool {
        self.id == other.id && self.tx.same(&other.tx)
    }
}
