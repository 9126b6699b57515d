use cb_control::Host;
use std::io::StdinLock;

/// What a process needs of its surroundings besides: standard input and standard error. A thread of
/// its own reads standard input, so the type of the reader is named.
pub trait ProcessHost: Host + Input<Reader = StdinLock<'static>> + Eprint {}

impl<R> ProcessHost for R
where
    R: Host + Input<Reader = StdinLock<'static>> + Eprint,
{}
