//! The line on a terminal that tells how far a network is.
ghost use Rattle.std.specs.Prelude.{◌≡◌};

use cb_base::Sink;
use cb_control::write_all;
use std::alloc::Global;

/// Goes back to the beginning of the line and erases it (ECMA-48: carriage return, erase in line).
const ERASE: &str = "\r\u{1b}[K";

/// The line on a terminal that tells how far a network is, or nothing if nobody looks. It is a
/// courtesy: where it can't be written, nothing else changes.
#[derive(Drop)]
pub struct Progress<P> {
    terminal: Option<P>,
}

impl<P: Sink> Progress<P> {
    /// The line on this terminal, if there is one.
    pub fn new(terminal: Option<P>) -> Progress<P>
        ensures { result.terminal ≡ terminal }
    {
        Progress { terminal }
    }

    /// Tells that the nodes greet each other.
    pub(crate) fn show_greetings(&mut self) {
        self.erase();
        self.write("nodes greet each other");
    }

    /// Tells that a block is relayed, by how many were before it and how many there are.
    pub(crate) fn show_block(&mut self, alloc: Global, before: u32, blocks: u32) {
        self.erase();
        let number = u64::from(before) + 1;
        if let Ok(text) = format!(in alloc; "block {number} of {blocks}") {
            self.write(text.as_str());
        }
    }

    /// Tells that the network ends, and is audited if that is asked for.
    pub(crate) fn show_end(&mut self) {
        self.erase();
        self.write("audits");
    }

    /// Erases the line.
    pub(crate) fn erase(&mut self) {
        self.write(ERASE);
    }

    /// Appends to the line.
    fn write(&mut self, text: &str) {
        if let Some(terminal) = &mut self.terminal {
            let _told = write_all(terminal, text.as_bytes());
        }
    }
}
