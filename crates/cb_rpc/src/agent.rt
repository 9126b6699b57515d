//! What is told of a peer's user agent.
ghost use Rattle.std.specs.Prelude.{◌≡◌, ◌++◌, IfOk, OnOk, string_bytes};
ghost use Rattle.cb_control.specs.PeerText.{agent_byte, agent_text, is_safe};

use std::alloc::{AllocError, Global};

/// The letters of an agent that are told, as Bitcoin Core's SanitizeString leaves them.
pub fn agent_text(alloc: Global, agent: &[u8]) -> Result<String, AllocError>
    ensures { IfOk result (λ text. string_bytes text ≡ agent_text agent.now) }
{
    let mut text = String::new(alloc);
    for byte in agent {
        push_safe(*byte, &mut text)?;
    }
    Ok(text)
}

/// Appends a byte of an agent, if it is told.
#[tactic(auto, using(cb_control::proofs::Agents::safe_byte))]
fn push_safe(byte: u8, text: &mut String) -> Result<(), AllocError>
    ensures { OnOk result (string_bytes text.new ≡ string_bytes text.old ++ agent_byte byte) }
{
    if is_safe(byte) {
        text.push(char::from(byte))?;
    }
    Ok(())
}

/// Whether a byte of an agent is told: letters, digits and a few signs are.
fn is_safe(byte: u8) -> bool
    ensures { result ≡ is_safe byte }
{
    byte.is_ascii_alphanumeric() || b" .,;-_/:?@()".contains(&byte)
}
