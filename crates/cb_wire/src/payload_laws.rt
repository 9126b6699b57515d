//! Theorems about lists, `sendcmpct`, `getheaders` and `version`: reading gives back what was
//! written. The contracts use these definitions.
//!
//! Each theorem is the contract of a function that does nothing.
ghost use Rattle.std.specs.Prelude.{◌≡◌, ℕ, ◌^◌, ◌<◌, ◌≤◌, List, length, All, Ok};
ghost use Rattle.std.specs.List.{AllByRecursion};
ghost use Rattle.cb_block.specs.TxReading.{hash_at};
ghost use Rattle.cb_block.specs.TxText.{list_text};
ghost use Rattle.cb_block.specs.BlockReading.{listed_header_at};
ghost use Rattle.cb_block.specs.BlockText.{IsHeader, listed_header_text};
ghost use Rattle.cb_wire.specs.declared.version.Version.{Version};
ghost use Rattle.cb_wire.specs.Lists.{IsEntry, IsHash, entry_at, entry_text, hash_text, listed_at};
ghost use Rattle.cb_wire.specs.Requests.{IsRequest, compact_relay_at, compact_relay_text, request_at, request_text};
ghost use Rattle.cb_wire.specs.RoundTrip.{IsReadAsWritten};
ghost use Rattle.cb_wire.specs.Version.{IsVersion, IsVersionPayload, version_at, version_text};

/// A list that is written is read back as the same list, within its limit: 50,000 inventory
/// entries, 2,000 headers, 101 hashes of a locator. Nothing else is read as that list.
pub fn lists_are_read_as_written()
    ensures entries { IsReadAsWritten (list_text entry_text) (listed_at 50000 36 entry_at)
        (λ list. (length list ≤ 50000) × All IsEntry list) }
    ensures headers { IsReadAsWritten (list_text listed_header_text)
        (listed_at 2000 81 listed_header_at) (λ list. (length list ≤ 2000) × All IsHeader list) }
    ensures hashes { IsReadAsWritten (list_text hash_text) (listed_at 101 32 hash_at)
        (λ list. (length list ≤ 101) × All IsHash list) }
{}

/// What is written as `sendcmpct` (BIP 152) or `getheaders` is read back as the same value, and
/// nothing else is read as that value.
pub fn requests_are_read_as_written()
    ensures relay { IsReadAsWritten compact_relay_text compact_relay_at
        (λ relay. relay.version < 2 ^ 64) }
    ensures request { IsReadAsWritten request_text request_at IsRequest }
{}

/// A `version` has several valid payloads: the one that is written; one without the relay byte, or
/// with a relay byte other than 0 and 1, for yes (BIP 37); and one with more bytes after the relay
/// byte. Each is read as that version, and nothing else is.
pub fn versions_are_read_as_spelled()
    ensures back { (bytes : List ℕ) (version : Version) → IsVersion version →
        IsVersionPayload bytes version → version_at bytes ≡ Ok version }
    ensures only { (bytes : List ℕ) (version : Version) →
        AllByRecursion (λ byte. byte < 256) bytes → version_at bytes ≡ Ok version →
        IsVersionPayload bytes version × IsVersion version }
    ensures text { (version : Version) → IsVersionPayload (version_text version) version }
{}
