//! Who may ask.
ghost use Rattle.std.specs.Prelude.{◌≡◌, ◌↔◌, length, IfOk, IsTrue};
ghost use Rattle.cb_rpc_serve.specs.Service.{key_of};

use base64::engine::general_purpose::STANDARD;
use std::alloc::{AllocError, Global};
use std::marker::Model;

/// The value of the header `authorization` that is asked for: HTTP's basic authentication (RFC
/// 7617). Contracts see its bytes.
#[derive(Drop)]
pub struct Password {
    text: Vec<u8>,
}

impl Model for Password {
    ghost use Rattle.std.specs.Prelude.{List, ℕ};

    ghost Value = { List ℕ };

    ghost view = { λ password. password.text.items };
}

impl Password {
    /// For a user and a password, as `user:password`.
    pub fn new(alloc: Global, user_and_password: &str) -> Result<Password, AllocError>
        ensures { IfOk result (λ password. password ≡ key_of user_and_password.now) }
    {
        let code = STANDARD.encode(alloc, user_and_password.as_bytes())?;
        let mut text = b"Basic ".to_vec(alloc)?;
        text.extend_from_slice(code.as_bytes())?;
        Ok(Password { text })
    }

    /// Whether a value is the one that is asked for. How long that takes depends on the lengths
    /// alone, so it tells nothing of where the two differ.
    pub fn is(&self, value: &[u8]) -> bool
        ensures { IsTrue result ↔ (value.now ≡ self.now) }
    {
        are_equal(value, self.text.as_slice())
    }
}

/// Whether two texts are equal, in a time that depends on their lengths alone.
fn are_equal(first: &[u8], second: &[u8]) -> bool
    ensures { IsTrue result ↔ (first.now ≡ second.now) }
{
    first.len() == second.len() && differing_bits(first, second) == 0
}

/// The bits in which bytes at the same place of two texts differ, of all places.
fn differing_bits(first: &[u8], second: &[u8]) -> u8
    requires { length first.now ≡ length second.now }
    ensures { (result ≡ 0) ↔ (first.now ≡ second.now) }
{
    let mut bits = 0;
    for place in 0..first.len() {
        bits |= first[place] ^ second[place];
    }
    bits
}
