//! What holds of the messages that a session sends: laws of the definitions that the contracts use.
//!
//! Each law is the contract of a function that does nothing.
ghost use Rattle.std.specs.Prelude.{◌≡◌, ℕ, List};
ghost use Rattle.cb_state.specs.declared.serving.Piece.{Piece};
ghost use Rattle.cb_peer_state.specs.Serving.{nonces_from, nonces_in, served, shorts};

/// The compact blocks of an answer have nonces one behind another, from the given one on, and they
/// are as many as `shorts` tells. So the next answer's first nonce is known.
pub fn each_form_has_its_own_nonce()
    ensures { (nonce : ℕ) (pieces : List Piece) →
        nonces_in (served nonce pieces) ≡ nonces_from nonce (shorts pieces) }
{}
