//! What is read of a request beside its call.
ghost use Rattle.std.specs.Prelude.{◌≡◌};
ghost use Rattle.json.specs.Value.{value_view};
ghost use Rattle.cb_rpc.specs.Requests.{is_note, is_second, size_of};

use json::Value;

/// Whether a request is one of JSON-RPC 2.0.
pub fn is_second(request: &Value<'_>) -> bool
    ensures { result ≡ is_second (value_view request.now) }
{
    let Some(version) = request.get("jsonrpc") else {
        return false;
    };
    match version.as_str() {
        Some(text) => text == "2.0",
        None => false,
    }
}

/// Whether a request isn't answered: it is one of JSON-RPC 2.0, and has no `id`.
pub fn is_note(request: &Value<'_>) -> bool
    ensures { result ≡ is_note (value_view request.now) }
{
    is_second(request) && request.get("id").is_none()
}

/// How many requests a list has; 0 if it is none.
pub fn size(requests: &Value<'_>) -> usize
    ensures { result ≡ size_of (value_view requests.now) }
{
    match requests {
        Value::Array(items) => items.as_slice().len(),
        _ => 0,
    }
}
