//! What connections moved.
ghost use Rattle.std.specs.Prelude.{◌≡◌, ◌++◌, OnOk, IsOkUnless, string_bytes};
ghost use Rattle.cb_base.specs.declared.fault.Fault.TheVariants.{Memory};
ghost use Rattle.cb_control.specs.Counters.{both, moved_text, nothing};

use cb_base::Fault;

/// What one connection or several moved.
#[derive(Clone, Copy)]
pub struct Moved {
    /// Messages read.
    pub messages: u64,
    /// Payload bytes of the messages read.
    pub payload: u64,
    /// Messages written.
    pub sent: u64,
    /// Bytes written.
    pub written: u64,
    /// Blocks that came as a `block`.
    pub full: u64,
    /// Blocks that were rebuilt from a `cmpctblock` (BIP 152) at once.
    pub compact: u64,
    /// Blocks that were rebuilt from a `cmpctblock` and a `blocktxn`.
    pub completed: u64,
    /// Blocks that came as a `block` because they couldn't be rebuilt.
    pub fallback: u64,
    /// The bytes that short ids saved.
    pub saved: u64,
}

impl Moved {
    /// Nothing was moved.
    pub fn nothing() -> Moved
        ensures { result ≡ nothing }
    {
        Moved {
            messages: 0,
            payload: 0,
            sent: 0,
            written: 0,
            full: 0,
            compact: 0,
            completed: 0,
            fallback: 0,
            saved: 0,
        }
    }

    /// What both moved. Each number wraps at 2^64.
    pub fn with(self, other: Moved) -> Moved
        ensures { result ≡ both self other }
    {
        Moved {
            messages: self.messages.wrapping_add(other.messages),
            payload: self.payload.wrapping_add(other.payload),
            sent: self.sent.wrapping_add(other.sent),
            written: self.written.wrapping_add(other.written),
            full: self.full.wrapping_add(other.full),
            compact: self.compact.wrapping_add(other.compact),
            completed: self.completed.wrapping_add(other.completed),
            fallback: self.fallback.wrapping_add(other.fallback),
            saved: self.saved.wrapping_add(other.saved),
        }
    }

    /// Appends what was moved: what came in and went out, and how blocks came. Fails only with
    /// `Fault::Memory`.
    pub fn print(&self, out: &mut String) -> Result<(), Fault>
        ensures text { OnOk result
            (string_bytes out.new ≡ string_bytes out.old ++ moved_text self.now) }
        ensures memory { IsOkUnless result Memory }
    {
        let (messages, payload) = (self.messages, self.payload);
        let (sent, written) = (self.sent, self.written);
        write!(
            out,
            "in {messages} messages {payload} payload bytes out {sent} messages "
        )?;
        let (full, compact, completed) = (self.full, self.compact, self.completed);
        let (fallback, saved) = (self.fallback, self.saved);
        write!(out, "{written} bytes blocks full {full} compact {compact} ")?;
        write!(
            out,
            "completed {completed} fallback {fallback} saved {saved} bytes"
        )?;
        Ok(())
    }
}
