//! What holds for every trace. Each law is the contract of a function that does nothing.
ghost use Rattle.std.specs.Prelude.{◌≡◌, ◌≢◌, ◌≤◌, ◌<◌, ◌%◌, ◌^◌, ℕ, true, false, if◌then◌else◌, All, List, Some, filter_map, get_or, length};
ghost use Rattle.std.specs.List.{list_any};
ghost use Rattle.cb_base.specs.declared.hash.Hash256.{Hash256};
ghost use Rattle.cb_chain.specs.Entries.{block_hash};
ghost use Rattle.cb_compact.specs.Slots.{Unfilled};
ghost use Rattle.cb_peer_state.specs.Fetching.{has};
ghost use Rattle.cb_hall.specs.declared.question.GivenBlock.{GivenBlock};
ghost use Rattle.cb_hall.specs.declared.question.Question.TheVariants as questions;
ghost use Rattle.cb_peer_state.specs.declared.settings.Settings.{Settings};
ghost use Rattle.cb_peer_state.specs.Questions.{pending_question, questions_left};
ghost use Rattle.cb_peer_state.specs.Laws.{IsReached, asks_for_block};
ghost use Rattle.cb_peer_state.specs.Serving.{nonces_from, nonces_in};
ghost use Rattle.cb_trace.specs.declared.trace.TraceEntry.{TraceEntry};
ghost use Rattle.cb_trace.specs.Blocks.{IsOnlySound, blocks_given};
ghost use Rattle.cb_trace.specs.Fold.{first_account, inputs_of, replies, sends, session_of};
ghost use Rattle.cb_trace.specs.Laws.{AnswersPings, EndsPromptly};
ghost use Rattle.cb_trace.specs.Whole.{AreAlternating, SendsWhatFollows, came_to, following, headers_in, highs_in, is_send_headers, knows_send_headers, number_sent, pings_in, probes_heeded, says_send_headers, tells_lacking, tells_missing, tells_needed};

/// If a trace is prompt (each item was answered before the next) and the peer's own end closed it,
/// the pongs sent are those of the peer's pings, in order (BIP 31).
pub fn each_ping_is_answered()
    ensures { (settings : Settings) (entries : List TraceEntry) → EndsPromptly settings entries →
        AnswersPings settings entries }
{}

/// The pings that a session sends are as many as the probes that found it ready, each with the next
/// nonce of its own, within 64 bits (BIP 31). So none is sent before the handshake is complete, and
/// none without a probe. A probe for whose `ping` memory ran out, or that filled the trace, ended
/// the session and isn't counted.
pub fn each_probe_is_a_ping()
    ensures nonces { (settings : Settings) (entries : List TraceEntry) →
        pings_in (sends settings entries)
        ≡ nonces_from (settings.nonce % 2 ^ 64) (probes_heeded (first_account settings) entries) }
    ensures many { (settings : Settings) (entries : List TraceEntry) →
        length (pings_in (sends settings entries))
        ≡ probes_heeded (first_account settings) entries }
{}

/// The open question of a session leaves at most six answers to wait for: an item asks no more
/// questions.
pub fn few_questions_are_pending()
    ensures { (settings : Settings) (entries : List TraceEntry) →
        questions_left (session_of settings entries).pending ≤ 6 }
{}

/// The settings of a session never change.
pub fn settings_stay()
    ensures { (settings : Settings) (entries : List TraceEntry) →
        (session_of settings entries).settings ≡ settings }
{}

/// The session of every trace is reachable. So the laws of reachable sessions hold for it.
pub fn each_session_is_reached()
    ensures { (settings : Settings) (entries : List TraceEntry) →
        IsReached (session_of settings entries) }
{}

/// `sendheaders` (BIP 130) is sent once if the handshake was completed with a peer of version 70012
/// or more, and never otherwise.
pub fn send_headers_goes_out_once()
    ensures once { (settings : Settings) (entries : List TraceEntry) →
        number_sent is_send_headers (sends settings entries) ≤ 1 }
    ensures exactly { (settings : Settings) (entries : List TraceEntry) →
        number_sent is_send_headers (sends settings entries)
        ≡ (if came_to knows_send_headers (first_account settings) entries then 1 else 0) }
{}

/// A peer that never sent `sendheaders` (BIP 130) isn't told of blocks by their headers. The
/// `headers` messages that it was sent answer its `getheaders`, each once and in order.
pub fn headers_are_told_where_asked_for()
    ensures asked { (settings : Settings) (entries : List TraceEntry) →
        (session_of settings entries).peer.by_headers ≡ true →
        list_any says_send_headers (inputs_of entries) ≡ true }
    ensures unasked { (settings : Settings) (entries : List TraceEntry) →
        list_any says_send_headers (inputs_of entries) ≡ false → SendsWhatFollows settings entries }
    ensures few { (settings : Settings) (entries : List TraceEntry) →
        list_any says_send_headers (inputs_of entries) ≡ false →
        length (filter_map headers_in (sends settings entries))
        ≤ length (filter_map following (replies settings entries)) }
{}

/// The hall listed every block in flight, and every block requested from the peer, as needed. It
/// listed every queued block as missing, or refused it since its parent is unknown. Any of these
/// may also be the block of a compact block (BIP 152) that was missing when the hall was asked
/// about its header.
pub fn blocks_are_fetched_as_told()
    ensures flight { (settings : Settings) (entries : List TraceEntry) (hash : Hash256) →
        has (session_of settings entries).fetch.flight hash ≡ true →
        list_any (tells_needed hash) (replies settings entries) ≡ true }
    ensures wanted { (settings : Settings) (entries : List TraceEntry) (hash : Hash256) →
        has (session_of settings entries).fetch.wanted hash ≡ true →
        list_any (tells_lacking hash) (replies settings entries) ≡ true }
    ensures asked { (settings : Settings) (entries : List TraceEntry) (hash : Hash256) →
        list_any (asks_for_block hash) (sends settings entries) ≡ true →
        list_any (tells_needed hash) (replies settings entries) ≡ true }
{}

/// Every block that a session gave the hall is sound, and so is the block of its open question. Its
/// transactions are the only list that is sound under its header, unless hashes collide
/// (`AreApart`; CVE-2012-2459, CVE-2017-12842).
pub fn each_block_given_is_the_only_sound_list()
    ensures given { (settings : Settings) (entries : List TraceEntry) →
        All IsOnlySound (blocks_given settings entries) }
    ensures pending { (settings : Settings) (entries : List TraceEntry) (given : GivenBlock) →
        pending_question (session_of settings entries) ≡ Some (questions.GiveBlock given) →
        IsOnlySound given.block }
{}

/// A block that is being rebuilt from a compact block (BIP 152) was missing when the hall was asked
/// about its header.
pub fn a_block_being_rebuilt_was_missing()
    ensures { (settings : Settings) (entries : List TraceEntry) (partial : Unfilled) →
        (session_of settings entries).compact.partial ≡ Some partial →
        list_any (tells_missing (block_hash partial.header)) (replies settings entries) ≡ true }
{}

/// The compact blocks (BIP 152) that a session sends have nonces one behind another, within 64
/// bits, from the salt of its settings on. So no two of the first 2^64 have the same nonce.
pub fn no_nonce_is_used_twice()
    ensures each { (settings : Settings) (entries : List TraceEntry) →
        nonces_in (sends settings entries)
        ≡ nonces_from (settings.salt % 2 ^ 64) (length (nonces_in (sends settings entries))) }
    ensures once { (settings : Settings) (entries : List TraceEntry) (i j : ℕ) → i < j →
        j < length (nonces_in (sends settings entries)) → j < 2 ^ 64 →
        get_or (nonces_in (sends settings entries)) i 0
        ≢ get_or (nonces_in (sends settings entries)) j 0 }
{}

/// Each `sendcmpct` (BIP 152) of a session says other than the one before it.
pub fn bandwidth_wishes_alternate()
    ensures { (settings : Settings) (entries : List TraceEntry) →
        AreAlternating (highs_in (sends settings entries)) }
{}
