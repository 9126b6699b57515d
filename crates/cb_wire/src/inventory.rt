ghost use Rattle.std.specs.Prelude.{◌≡◌};
ghost use Rattle.cb_wire.specs.Kinds.{IsOtherKind};
ghost use Rattle.cb_wire.specs.Lists.{hash_in, kind_of, named};

use crate::listed::Listed;
use cb_base::Hash256;
use cb_block::Header;
use std::marker::Model;

/// The number of an inventory type that has no name here: any but 1, 2 and 4. For the prover its
/// value is the number.
#[derive(Clone, Copy, PartialEq, Eq)]
pub struct OtherKind {
    number: u32,
}

impl Model for OtherKind {
    ghost use Rattle.std.specs.Prelude.{ℕ};
    ghost use Rattle.cb_wire.specs.Kinds.{IsOtherKind};

    ghost Value = { ℕ };

    ghost view = { λ kind. kind.number };

    ghost invariant = { λ kind. IsOtherKind kind.number };

    ghost inverse = { λ number. record { number = number } };
}

impl OtherKind {
    /// The number.
    pub fn number(&self) -> u32
        ensures same { result ≡ self.now }
        ensures other { IsOtherKind self.now }
    {
        self.number
    }
}

/// An inventory entry (`inv`, `getdata`, `notfound`): a type and a hash. A type and a hash are one
/// entry, and each entry is of one type and one hash (`of`, `kind`, `hash`).
#[derive(Clone, Copy, PartialEq, Eq)]
pub enum Inventory {
    /// Type 1: a transaction, by its txid.
    Tx(Hash256),
    /// Type 2: a block, by its hash.
    Block(Hash256),
    /// Type 4: a block, as a compact block if it is near the tip (BIP 152).
    CompactBlock(Hash256),
    /// A type that this node doesn't know, and the hash.
    Other(OtherKind, Hash256),
}

impl Inventory {
    /// The entry of this type and hash.
    pub fn of(kind: u32, hash: Hash256) -> Inventory
        ensures { result ≡ named kind hash }
    {
        match kind {
            1 => Inventory::Tx(hash),
            2 => Inventory::Block(hash),
            4 => Inventory::CompactBlock(hash),
            number => Inventory::Other(OtherKind { number }, hash),
        }
    }

    /// The type, as it is written.
    pub fn kind(&self) -> u32
        ensures kind { result ≡ kind_of self.now }
        // A known type stands under its name.
        ensures known { named (kind_of self.now) (hash_in self.now) ≡ self.now }
    {
        match self {
            Inventory::Tx(_) => 1,
            Inventory::Block(_) => 2,
            Inventory::CompactBlock(_) => 4,
            Inventory::Other(kind, _) => kind.number(),
        }
    }

    /// The hash.
    pub fn hash(&self) -> Hash256
        ensures { result ≡ hash_in self.now }
    {
        match self {
            Inventory::Tx(txid) => *txid,
            Inventory::Block(hash) => *hash,
            Inventory::CompactBlock(hash) => *hash,
            Inventory::Other(_, hash) => *hash,
        }
    }
}

/// The most entries of one message.
pub const MOST_ENTRIES: usize = 50_000;

/// The entries of `inv`, `getdata` or `notfound`: at most 50,000.
pub type Entries = Listed<Inventory, MOST_ENTRIES>;

/// The block headers of `headers`: at most 2,000.
pub type HeaderList = Listed<Header, 2_000>;

/// The block hashes of a locator (`getheaders`): at most 101.
pub type Locator = Listed<Hash256, 101>;
