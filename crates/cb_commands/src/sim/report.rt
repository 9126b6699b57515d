ghost use Rattle.std.specs.Prelude.{◌≡◌, ◌<◌, ◌++◌, length, OnOk, IsOkUnless, string_bytes};
ghost use Rattle.cb_base.specs.declared.fault.Fault.TheVariants.{Memory};
ghost use Rattle.cb_commands.specs.SimReport.{marks_text, peer_text, peers_text, handler_text, ring_text, handlers_text, report_text};

use cb_base::Fault;
use cb_crew::{Mark, System};

/// Appends the report: a line for each peer, one for the ring and one for each handler.
///
/// Fails only with `Fault::Memory`.
pub fn write(system: &System, out: &mut String) -> Result<(), Fault>
    ensures text { OnOk result
        (string_bytes out.new ≡ string_bytes out.old ++ report_text system.now.crew) }
    ensures memory { IsOkUnless result Memory }
{
    peers(system, out)?;
    ring(system, out)?;
    handlers(system, out)
}

/// The lines of all peers: what was queued for each, and what was taken.
fn peers(system: &System, out: &mut String) -> Result<(), Fault>
    ensures text { OnOk result
        (string_bytes out.new ≡ string_bytes out.old ++ peers_text system.now.crew) }
    ensures memory { IsOkUnless result Memory }
{
    for peer in 0..system.peers() {
        peer_line(system, peer, out)?;
    }
    Ok(())
}

/// A peer's line.
fn peer_line(system: &System, peer: u16, out: &mut String) -> Result<(), Fault>
    requires { peer < length system.now.crew.lines }
    ensures text { OnOk result
        (string_bytes out.new ≡ string_bytes out.old ++ peer_text system.now.crew peer) }
    ensures memory { IsOkUnless result Memory }
{
    write!(out, "peer {peer} queued ")?;
    marks(system.queued(peer), out)?;
    write!(out, " taken ")?;
    marks(system.taken(peer), out)?;
    writeln!(out)?;
    Ok(())
}

/// Marks separated by commas, or `-` if there are none.
fn marks(marks: &[Mark], out: &mut String) -> Result<(), Fault>
    ensures text { OnOk result
        (string_bytes out.new ≡ string_bytes out.old ++ marks_text marks.now) }
    ensures memory { IsOkUnless result Memory }
{
    match marks.split_first() {
        Some((first, rest)) => {
            write!(out, "{first}")?;
            for mark in rest {
                write!(out, ",{mark}")?;
            }
        }
        None => write!(out, "-")?,
    }
    Ok(())
}

/// The line of the ring: the desks that wait in it.
fn ring(system: &System, out: &mut String) -> Result<(), Fault>
    ensures text { OnOk result
        (string_bytes out.new ≡ string_bytes out.old ++ ring_text system.now.crew) }
    ensures memory { IsOkUnless result Memory }
{
    let mut desks = system.ring();
    match desks.next() {
        Some(first) => {
            write!(out, "ring {first}")?;
            for desk in desks {
                write!(out, ",{desk}")?;
            }
            writeln!(out)?;
        }
        None => writeln!(out, "ring -")?,
    }
    Ok(())
}

/// The lines of all handlers: the desk that each holds.
fn handlers(system: &System, out: &mut String) -> Result<(), Fault>
    ensures text { OnOk result
        (string_bytes out.new ≡ string_bytes out.old ++ handlers_text system.now.crew) }
    ensures memory { IsOkUnless result Memory }
{
    for handler in 0..system.handlers() {
        handler_line(system, handler, out)?;
    }
    Ok(())
}

/// A handler's line.
fn handler_line(system: &System, handler: u16, out: &mut String) -> Result<(), Fault>
    requires { handler < length system.now.crew.desks.held }
    ensures text { OnOk result
        (string_bytes out.new ≡ string_bytes out.old ++ handler_text system.now.crew handler) }
    ensures memory { IsOkUnless result Memory }
{
    match system.held(handler) {
        Some(desk) => writeln!(out, "handler {handler} desk {desk}")?,
        None => writeln!(out, "handler {handler} -")?,
    }
    Ok(())
}
