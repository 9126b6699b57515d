//! The line of a connection that lasts.
ghost use Rattle.std.specs.Prelude.{◌≡◌, ◌++◌, IsOkUnless, OnOk, string_bytes};
ghost use Rattle.std.specs.Fmt.{signed_decimal};
ghost use Rattle.cb_base.specs.declared.fault.Fault.TheVariants.{Memory};
ghost use Rattle.cb_control.specs.PeerText.{agent_byte, agent_text, greeting_text, is_safe, or_dash, peer_end, pong_text, times_text};
ghost use Rattle.cb_control.specs.ReplyText.{peer_text, way_name};

use crate::report::{Greeting, PeerReport};
use cb_base::Fault;

/// Appends the line of a connection that lasts. Fails only with `Fault::Memory`.
pub fn print_peer(peer: &PeerReport, out: &mut String) -> Result<(), Fault>
    ensures text { OnOk result
        (string_bytes out.new ≡ string_bytes out.old ++ peer_text peer.now) }
    ensures memory { IsOkUnless result Memory }
{
    let (slot, generation, way) = (peer.slot, peer.generation, way_name(peer.inbound));
    let (address, phase) = (peer.address, peer.phase.name());
    write!(
        out,
        "slot {slot} connection {generation} {way} {address} {phase} "
    )?;
    peer.moved.print(out)?;
    print_end(peer, out)
}

/// Appends the end of a connection's line: its times, and what the peer's `version` told. Fails
/// only with `Fault::Memory`.
fn print_end(peer: &PeerReport, out: &mut String) -> Result<(), Fault>
    ensures text { OnOk result
        (string_bytes out.new ≡ string_bytes out.old ++ peer_end peer.now) }
    ensures memory { IsOkUnless result Memory }
{
    print_times(peer, out)?;
    print_greeting(&peer.greeting, out)?;
    out.push('\n')?;
    Ok(())
}

/// `from` a peer that made the connection, or `to` a peer.
fn way_name(inbound: bool) -> &'static str
    ensures { result.now ≡ way_name inbound }
{
    if inbound { "from" } else { "to" }
}

/// Appends when a connection was made, when its latest message came, and how long its latest `pong`
/// took. Fails only with `Fault::Memory`.
fn print_times(peer: &PeerReport, out: &mut String) -> Result<(), Fault>
    ensures text { OnOk result
        (string_bytes out.new ≡ string_bytes out.old ++ times_text peer.now) }
    ensures memory { IsOkUnless result Memory }
{
    let since = peer.since;
    write!(out, " since {since} last ")?;
    print_seconds(peer.last, out)?;
    print_pong(peer.pong, out)
}

/// Appends a moment, if there is one. Fails only with `Fault::Memory`.
fn print_seconds(moment: Option<i64>, out: &mut String) -> Result<(), Fault>
    ensures text { OnOk result
        (string_bytes out.new ≡ string_bytes out.old ++ or_dash signed_decimal moment) }
    ensures memory { IsOkUnless result Memory }
{
    match moment {
        Some(seconds) => write!(out, "{seconds}")?,
        None => write!(out, "-")?,
    }
    Ok(())
}

/// Appends how long the latest `pong` took, if one came. Fails only with `Fault::Memory`.
fn print_pong(pong: Option<u64>, out: &mut String) -> Result<(), Fault>
    ensures text { OnOk result (string_bytes out.new ≡ string_bytes out.old ++ pong_text pong) }
    ensures memory { IsOkUnless result Memory }
{
    match pong {
        Some(millis) => write!(out, " pong {millis} ms")?,
        None => write!(out, " pong -")?,
    }
    Ok(())
}

/// Appends what a peer's `version` told, if it came. Fails only with `Fault::Memory`.
fn print_greeting(greeting: &Option<Greeting>, out: &mut String) -> Result<(), Fault>
    ensures text { OnOk result
        (string_bytes out.new ≡ string_bytes out.old ++ greeting_text greeting.now) }
    ensures memory { IsOkUnless result Memory }
{
    match greeting {
        Some(greeting) => {
            let (version, height) = (greeting.version, greeting.height);
            write!(out, " version {version} height {height} agent ")?;
            print_agent(greeting.agent.as_slice(), out)?;
        }
        None => write!(out, " version - height - agent -")?,
    }
    Ok(())
}

/// Appends what is told of an agent. Fails only with `Fault::Memory`.
fn print_agent(agent: &[u8], out: &mut String) -> Result<(), Fault>
    ensures text { OnOk result
        (string_bytes out.new ≡ string_bytes out.old ++ agent_text agent.now) }
    ensures memory { IsOkUnless result Memory }
{
    for byte in agent {
        print_byte(*byte, out)?;
    }
    Ok(())
}

/// Appends a byte of an agent, if it is safe. Fails only with `Fault::Memory`.
#[tactic(auto, using(crate::proofs::Agents::safe_byte))]
fn print_byte(byte: u8, out: &mut String) -> Result<(), Fault>
    ensures text { OnOk result (string_bytes out.new ≡ string_bytes out.old ++ agent_byte byte) }
    ensures memory { IsOkUnless result Memory }
{
    if is_safe(byte) {
        out.push(char::from(byte))?;
    }
    Ok(())
}

/// Whether a byte of an agent is told: letters, digits and a few signs are, as by Bitcoin Core's
/// SanitizeString, so that no peer writes a line of ours.
fn is_safe(byte: u8) -> bool
    ensures { result ≡ is_safe byte }
{
    byte.is_ascii_alphanumeric() || b" .,;-_/:?@()".contains(&byte)
}
