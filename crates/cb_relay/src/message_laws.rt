//! What holds of rebuilding from bytes and of envelopes, whatever they are.
//!
//! Each law is the contract of a function that does nothing.
ghost use Rattle.std.specs.Prelude.{◌≡◌, ◌++◌, ℕ, List, length, None, Ok};
ghost use Rattle.cb_base.specs.declared.hash.Hash256.{Hash256};
ghost use Rattle.cb_block.specs.Blocks.{texts};
ghost use Rattle.cb_block.specs.Soundness.{names};
ghost use Rattle.cb_relay.specs.Completing.{completed_in};
ghost use Rattle.cb_relay.specs.Envelopes.{cut_at};
ghost use Rattle.cb_relay.specs.Known.{known_in};
ghost use Rattle.cb_relay.specs.Messages.{wrong_message};
ghost use Rattle.cb_relay.specs.Rebuilding.{IsTheBlock, rebuilt_in};
ghost use Rattle.cb_relay.specs.WholeMessages.{txs_in};
ghost use Rattle.cb_relay.specs.declared.envelope.CutEnvelope.TheVariants.{Whole};
ghost use Rattle.cb_relay.specs.declared.rebuilding.Kind.TheVariants.{Block};
ghost use Rattle.cb_block.specs.declared.tx.Tx.{Tx};
ghost use Rattle.cb_wire.specs.Envelope.{envelope_text};

/// A block that comes out is sound, and has the header of the compact block. No other sound block
/// has that header, unless hashes collide. So it is, whatever transactions, txids and payloads are
/// given.
pub fn what_is_rebuilt_is_the_block()
    ensures rebuilt { (message txs text : List ℕ) →
        rebuilt_in message txs ≡ Ok (Block, text) → IsTheBlock message text }
    ensures known { (message txs text : List ℕ) (txids : List Hash256) →
        known_in message txs txids ≡ Ok (Block, text) → IsTheBlock message text }
    ensures completed { (message txs more text : List ℕ) →
        completed_in message txs more ≡ Ok (Block, text) → IsTheBlock message text }
{}

/// With the txids of the transactions, rebuilding comes to the same as without.
pub fn known_txids_change_nothing()
    ensures { (message txs : List ℕ) (given : List Tx) → txs_in txs ≡ Ok given →
        known_in message txs (names (texts given)) ≡ rebuilt_in message txs }
{}

/// The envelope of a command and its payload is read again as a message of that length, whatever
/// comes behind it in the stream.
pub fn what_is_written_is_a_message()
    ensures { (name payload rest : List ℕ) → wrong_message name payload ≡ None →
        cut_at (envelope_text name payload ++ rest) ≡ Whole (length payload) None }
{}
