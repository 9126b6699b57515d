use cb_base::Shared;
use cb_block::Tx;

/// A transaction that a compact block carries in full (BIP 152, PrefilledTransaction).
#[derive(Drop)]
pub struct PrefilledTransaction {
    /// Its index in the block, differentially encoded. For the first prefilled transaction it is
    /// the index itself. For each further one it is the number of places between it and the one
    /// before.
    pub difference: u64,
    /// The transaction. It may be shared with other owners.
    pub tx: Shared<Tx>,
}
