//! The responses that refuse a request.
ghost use Rattle.std.specs.Prelude.{[], ◌∷◌, codes, OnOk};
ghost use Rattle.http_server.specs.Response.{IsBlank, IsResponse};
ghost use Rattle.cb_rpc_serve.specs.Service.{IsRefusal};

use crate::refusal::HttpRefusal;
use bytes::Bytes;
use http::header::{ALLOW, WWW_AUTHENTICATE};
use http::{HeaderValue, StatusCode};
use http_server::Response;
use std::alloc::{AllocError, Global};

/// Fills a response that refuses a request.
pub(crate) fn refuse(
    alloc: Global,
    refusal: HttpRefusal,
    response: &mut Response,
) -> Result<(), AllocError>
    requires { IsBlank response.old }
    ensures { OnOk result (IsRefusal refusal response.new) }
{
    match refusal {
        HttpRefusal::Method => refuse_method(alloc, response),
        HttpRefusal::Origin => refuse_origin(alloc, response),
        HttpRefusal::Host => refuse_host(alloc, response),
        HttpRefusal::Stranger => refuse_stranger(response),
        HttpRefusal::Content => refuse_content(alloc, response),
    }
}

/// Tells that only POST is answered.
fn refuse_method(alloc: Global, response: &mut Response) -> Result<(), AllocError>
    requires { IsBlank response.old }
    ensures { OnOk result (IsRefusal HttpRefusal.Method response.new) }
{
    response.status = StatusCode::METHOD_NOT_ALLOWED;
    response.add_header(ALLOW, HeaderValue::from_static("POST"))?;
    let text = Bytes::copy_from_slice(alloc, b"JSONRPC server handles only POST requests")?;
    response.body.push(text)
}

/// Tells that no web page is answered.
fn refuse_origin(alloc: Global, response: &mut Response) -> Result<(), AllocError>
    requires { IsBlank response.old }
    ensures { OnOk result (IsRefusal HttpRefusal.Origin response.new) }
{
    response.status = StatusCode::FORBIDDEN;
    let text = Bytes::copy_from_slice(alloc, b"Requests with an Origin are refused")?;
    response.body.push(text)
}

/// Tells that the own machine has no such name.
fn refuse_host(alloc: Global, response: &mut Response) -> Result<(), AllocError>
    requires { IsBlank response.old }
    ensures { OnOk result (IsRefusal HttpRefusal.Host response.new) }
{
    response.status = StatusCode::FORBIDDEN;
    let text = Bytes::copy_from_slice(alloc, b"Host is no name of this machine")?;
    response.body.push(text)
}

/// Tells that the password is wrong.
fn refuse_stranger(response: &mut Response) -> Result<(), AllocError>
    requires { IsBlank response.old }
    ensures { OnOk result (IsRefusal HttpRefusal.Stranger response.new) }
{
    response.status = StatusCode::UNAUTHORIZED;
    let realm = HeaderValue::from_static("Basic realm=\"jsonrpc\"");
    response.add_header(WWW_AUTHENTICATE, realm)
}

/// Tells that only JSON is read.
fn refuse_content(alloc: Global, response: &mut Response) -> Result<(), AllocError>
    requires { IsBlank response.old }
    ensures { OnOk result (IsRefusal HttpRefusal.Content response.new) }
{
    response.status = StatusCode::UNSUPPORTED_MEDIA_TYPE;
    let text = Bytes::copy_from_slice(alloc, b"Content-Type must be application/json")?;
    response.body.push(text)
}
