//! What a process writes to its two pipes, standard output and standard error, so that no pipe that
//! nobody reads stops it: writers with threads of their own, and the log's lines.
#![tactic(auto)]

mod clock;
mod last_second;
mod log_line;
mod log_rate;
mod log_thread;
mod losses;
mod pipe_writer;
mod piped_log;
mod pipes;

pub use clock::{unix_millis, unix_time};
pub use last_second::{Dated, keep_last_second};
pub use log_line::LogLine;
pub use log_rate::LogRate;
pub use log_thread::{LogFault, LogThread, start_log};
pub use losses::{Lane, Losses, dropped_lines_are_counted_once, offer};
pub use pipe_writer::{Patience, PipeWriter};
pub use piped_log::PipedLog;
pub use pipes::Pipes;
