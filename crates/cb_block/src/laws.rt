// The functions of this file do nothing: their contracts are theorems.

ghost use Rattle.std.specs.Prelude.{◌≡◌, ◌≢◌, ℕ, List, [], ◌++◌, Err};
ghost use Rattle.cb_base.specs.declared.fault.Fault.TheVariants.{Truncated};
ghost use Rattle.cb_base.specs.declared.hash.Hash256.{Hash256};
ghost use Rattle.cb_block.specs.MerkleTree.{IsRoot};
ghost use Rattle.cb_block.specs.BlockReading.{block_at, header_at};
ghost use Rattle.cb_block.specs.Soundness.{AreApart, IsSound};
ghost use Rattle.cb_block.specs.BlockText.{IsBlock, IsHeader, block_text, header_text};
ghost use Rattle.cb_block.specs.declared.block.Block.{Block};
ghost use Rattle.cb_block.specs.declared.header.Header.{Header};

/// A list of hashes has one Merkle root.
pub fn one_root()
    ensures { (leaves : List Hash256) (a b : Hash256) → IsRoot leaves a → IsRoot leaves b → a ≡ b }
{}

/// At most one list of byte strings is sound under a Merkle root, unless hashes collide. If two
/// lists are sound under it, and no two different strings that were hashed for their trees have one
/// hash, then the lists are equal.
pub fn one_sound_list()
    ensures { (root : Hash256) (texts : List (List ℕ)) → IsSound root texts
        → (others : List (List ℕ)) → IsSound root others → AreApart texts others → others ≡ texts }
{}

/// The serialisation is unique and prefix-free. If the serialisations of two blocks, each followed
/// by any bytes, are the same bytes, then the blocks are equal, and so are the bytes that follow.
pub fn one_block_text()
    ensures { (a b : Block) (x y : List ℕ) → IsBlock a → IsBlock b →
        block_text a ++ x ≡ block_text b ++ y
        → (a ≡ b) × (x ≡ y) }
{}

/// A strict prefix of a header's serialisation fails to read with `Fault::Truncated`.
pub fn beginning_of_header_is_truncated()
    ensures { (header : Header) (b c : List ℕ) → IsHeader header → header_text header ≡ b ++ c →
        c ≢ [] → header_at b ≡ Err Truncated }
{}

/// A strict prefix of a block's serialisation fails to read with `Fault::Truncated`.
pub fn beginning_of_block_is_truncated()
    ensures { (block : Block) (b c : List ℕ) → IsBlock block → block_text block ≡ b ++ c → c ≢ [] →
        block_at b ≡ Err Truncated }
{}
