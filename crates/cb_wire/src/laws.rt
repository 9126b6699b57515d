//! Theorems about streams of messages, however they are cut into pieces. The contracts use these
//! definitions.
//!
//! Each theorem is the contract of a function that does nothing.
ghost use Rattle.std.specs.Prelude.{◌≡◌, ◌↔◌, ◌+◌, ◌<◌, ◌++◌, ℕ, List, [], ◌∷◌, length, map, take, Option, Some, None};
ghost use Rattle.std.specs.List.{AllByRecursion};
ghost use Rattle.cb_base.specs.declared.fault.Fault.{Fault};
ghost use Rattle.cb_wire.specs.declared.message.Message.{Message};
ghost use Rattle.cb_wire.specs.declared.item.Item.{Item};
ghost use Rattle.cb_wire.specs.declared.item.Item.TheVariants.{Good};
ghost use Rattle.cb_wire.specs.Grammar.{IsProper};
ghost use Rattle.cb_wire.specs.Stream.{Extends, Stream, Reading, texts};
ghost use Rattle.cb_wire.specs.declared.envelope.Front.TheVariants.{Whole};
ghost use Rattle.cb_wire.specs.Command.{IsCommand, command_field, command_in};
ghost use Rattle.cb_wire.specs.Envelope.{IsEnvelopeOf, front_at, item_at, text};

/// A byte string has at most one reading: its items, the bytes left over and its fault are
/// determined.
pub fn one_reading()
    ensures items { (bytes : List ℕ) (i j : List Item) (r s : List ℕ) (f g : Option Fault) →
        Stream bytes i r f → Stream bytes j s g → i ≡ j }
    ensures rest { (bytes : List ℕ) (i j : List Item) (r s : List ℕ) (f g : Option Fault) →
        Stream bytes i r f → Stream bytes j s g → r ≡ s }
    ensures fault { (bytes : List ℕ) (i j : List Item) (r s : List ℕ) (f g : Option Fault) →
        Stream bytes i r f → Stream bytes j s g → f ≡ g }
{}

/// More bytes never change the items of the bytes before them. They can only add items.
pub fn readings_go_on()
    ensures { (bytes more : List ℕ) (items : List Item) (rest : List ℕ) (fault : Option Fault) →
        Stream bytes items rest fault → Extends (bytes ++ more) items }
{}

/// Every byte string has a reading.
pub fn some_reading()
    ensures { (bytes : List ℕ) → Reading bytes }
{}

/// The envelopes of messages, one after another, are read back as these messages with nothing left
/// over, however the bytes are cut. No two messages have the same envelope.
pub fn texts_are_a_stream()
    ensures stream { (messages : List Message) → AllByRecursion IsProper messages →
        Stream (texts messages) (map (λ message. Good message) messages) [] None }
    ensures alone { (m n : Message) → IsProper m → IsProper n → text m ≡ text n → m ≡ n }
{}

/// The command field of 12 bytes holds a command exactly if it is a name in the form of a command,
/// padded with zeros.
pub fn commands_are_names_and_zeros()
    ensures { (field name : List ℕ) → length field ≡ 12 →
        ((command_in field ≡ Some name) ↔ (IsCommand name × (field ≡ command_field name))) }
{}

/// A message can come only from its own envelope. If an item is `Good`, its bytes are the magic,
/// the message's name, the length and the checksum of a payload, and a payload that spells the
/// message.
pub fn good_items_are_envelopes()
    ensures { (bytes : List ℕ) (n : ℕ) (message : Message) →
        AllByRecursion (λ byte. byte < 256) bytes → front_at bytes ≡ Whole n →
        item_at n bytes ≡ Good message → IsEnvelopeOf (take (24 + n) bytes) message }
{}
