//! A line of the log.
ghost use Rattle.std.specs.Prelude.{◌≡◌, ◌++◌, ◌∷◌, [], OnOk, string_bytes};
ghost use Rattle.cb_pipes.specs.Logging.{count_text, line_text, loss_text};

use std::alloc::AllocError;

/// A line of the log on its way to standard error.
#[derive(Drop)]
pub struct LogLine {
    /// The time at which it was logged, as the log writes it, with a space behind it; empty if the
    /// clock couldn't tell it.
    pub stamp: String,
    /// How many lines were dropped since the line before it.
    pub dropped: u64,
    /// What is logged.
    pub text: String,
}

impl LogLine {
    /// Appends the line, behind one that tells how many lines were dropped, if any were.
    pub fn print(&self, out: &mut String) -> Result<(), AllocError>
        ensures text { OnOk result
            (string_bytes out.new ≡ string_bytes out.old ++ line_text self.now) }
    {
        self.print_loss(out)?;
        self.print_text(out)
    }

    /// Appends a line that tells how many lines were dropped, if any were.
    fn print_loss(&self, out: &mut String) -> Result<(), AllocError>
        ensures text { OnOk result (string_bytes out.new
            ≡ string_bytes out.old ++ loss_text (string_bytes self.now.stamp) self.now.dropped) }
    {
        if self.dropped == 0 {
            Ok(())
        } else {
            self.print_count(out)
        }
    }

    /// Appends a line that tells how many lines were dropped.
    fn print_count(&self, out: &mut String) -> Result<(), AllocError>
        ensures text { OnOk result (string_bytes out.new
            ≡ string_bytes out.old ++ count_text (string_bytes self.now.stamp) self.now.dropped) }
    {
        let (stamp, dropped) = (self.stamp.as_str(), self.dropped);
        write!(
            out,
            "{stamp}[WARN  cbrelay] {dropped} lines of the log were dropped\n"
        )?;
        Ok(())
    }

    /// Appends the line alone.
    fn print_text(&self, out: &mut String) -> Result<(), AllocError>
        ensures text { OnOk result (string_bytes out.new
            ≡ string_bytes out.old ++ string_bytes self.now.stamp ++ string_bytes self.now.text
            ++ 10 ∷ []) }
    {
        let (stamp, text) = (self.stamp.as_str(), self.text.as_str());
        write!(out, "{stamp}{text}\n")?;
        Ok(())
    }
}
