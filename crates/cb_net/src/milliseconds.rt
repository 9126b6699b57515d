//! Times as they are printed.
ghost use Rattle.std.specs.Prelude.{Some};
ghost use Rattle.cb_net.specs.Times.{cell_text, time_text};

use std::fmt;

/// A time in microseconds, if there is one. It is printed in whole milliseconds, or as a dash.
#[derive(Clone, Copy)]
pub struct Milliseconds(pub Option<u64>);

impl fmt::Display for Milliseconds {
    ghost output = { λ it. Some (time_text it.0) };

    fn fmt<W: fmt::Write>(&self, f: &mut fmt::Formatter<W>) -> fmt::Result {
        match self.0 {
            Some(time) => write!(f, "{}", time / 1_000),
            None => write!(f, "-"),
        }
    }
}

/// The same in a row of comma-separated values: nothing stands for no time.
#[derive(Clone, Copy)]
pub struct Cell(pub Option<u64>);

impl fmt::Display for Cell {
    ghost output = { λ it. Some (cell_text it.0) };

    fn fmt<W: fmt::Write>(&self, f: &mut fmt::Formatter<W>) -> fmt::Result {
        match self.0 {
            Some(time) => write!(f, "{}", time / 1_000),
            None => write!(f, ""),
        }
    }
}
