//! Why a request is refused before it is read.
ghost use Rattle.std.specs.Prelude.{◌≡◌};
ghost use Rattle.cb_rpc_serve.specs.Service.{has_key, has_origin, is_home, is_json, is_post, refusal_of};
ghost use Rattle.cb_rpc_serve.specs.Words.{begins_with, follows_numbers, is_json_type, is_loopback, is_named, is_numbered};

use crate::password::Password;
use bytes::Bytes;
use http::Request;
use http::header::{AUTHORIZATION, CONTENT_TYPE, HOST, ORIGIN};

/// Why a request is refused before it is read.
#[derive(Clone, Copy)]
pub enum HttpRefusal {
    /// It isn't a POST.
    Method,
    /// A web page sends it: it has an `origin`.
    Origin,
    /// Its `host` is no name of the own machine: a name that somebody else made to lead here.
    Host,
    /// It lacks the password.
    Stranger,
    /// Its content isn't said to be JSON.
    Content,
}

/// Why a request is refused, if it is. With `remote`, any `host` will do.
pub fn why_refused(
    password: &Password,
    remote: bool,
    request: &Request<Bytes>,
) -> Option<HttpRefusal>
    ensures { result ≡ refusal_of password.now remote request.now }
{
    if !is_post(request) {
        Some(HttpRefusal::Method)
    } else if has_origin(request) {
        Some(HttpRefusal::Origin)
    } else if !remote && !is_home(request) {
        Some(HttpRefusal::Host)
    } else if !is_known(password, request) {
        Some(HttpRefusal::Stranger)
    } else if !is_json(request) {
        Some(HttpRefusal::Content)
    } else {
        None
    }
}

/// Whether a request is a POST.
fn is_post(request: &Request<Bytes>) -> bool
    ensures { result ≡ is_post request.now }
{
    request.method().as_str() == "POST"
}

/// Whether a request comes from a web page.
fn has_origin(request: &Request<Bytes>) -> bool
    ensures { result ≡ has_origin request.now }
{
    request.headers().get(ORIGIN).is_some()
}

/// Whether a request's `host` is a name of the own machine. It is if there is none.
fn is_home(request: &Request<Bytes>) -> bool
    ensures { result ≡ is_home request.now }
{
    match request.headers().get(HOST) {
        Some(host) => is_loopback(host.as_bytes()),
        None => true,
    }
}

/// Whether a request has the password.
fn is_known(password: &Password, request: &Request<Bytes>) -> bool
    ensures { result ≡ has_key password.now request.now }
{
    match request.headers().get(AUTHORIZATION) {
        Some(value) => password.is(value.as_bytes()),
        None => false,
    }
}

/// Whether a request's content is said to be JSON.
fn is_json(request: &Request<Bytes>) -> bool
    ensures { result ≡ is_json request.now }
{
    match request.headers().get(CONTENT_TYPE) {
        Some(content) => is_json_type(content.as_bytes()),
        None => false,
    }
}

/// Whether a content type is JSON.
fn is_json_type(content: &[u8]) -> bool
    ensures { result ≡ is_json_type content.now }
{
    begins_with(content, b"application/json")
}

/// Whether a `host`, with or without a port, is a name of the own machine: `localhost`, `[::1]` or
/// an address that begins with 127.
fn is_loopback(host: &[u8]) -> bool
    ensures { result ≡ is_loopback host.now }
{
    is_named(host) || begins_with(host, b"[::1]") || is_numbered(host)
}

/// Whether a `host`, with or without a port, is `localhost`.
fn is_named(host: &[u8]) -> bool
    ensures { result ≡ is_named host.now }
{
    begins_with(host, b"localhost") && (host.len() == 9 || host[9] == b':')
}

/// Whether a `host`, with or without a port, is an address in numbers that begins with 127.
fn is_numbered(host: &[u8]) -> bool
    ensures { result ≡ is_numbered host.now }
{
    begins_with(host, b"127.") && follows_numbers(&host[4..])
}

/// Whether digits and dots alone come up to a colon or the end.
fn follows_numbers(text: &[u8]) -> bool
    ensures { result ≡ follows_numbers text.now }
{
    for byte in text {
        if *byte == b':' {
            return true;
        }
        if !byte.is_ascii_digit() && *byte != b'.' {
            return false;
        }
    }
    true
}

/// Whether a text begins with a word, in small or large letters.
fn begins_with(text: &[u8], word: &[u8]) -> bool
    ensures { result ≡ begins_with word.now text.now }
{
    text.len() >= word.len() && text[..word.len()].eq_ignore_ascii_case(word)
}
