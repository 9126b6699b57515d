/// The status of an HTTP response that answers a request.
#[derive(Clone, Copy)]
pub enum ResponseStatus {
    /// 200: the request is answered.
    Answered,
    /// 204: there is no answer.
    NoContent,
    /// 400: it is no request.
    BadRequest,
    /// 404: no method has its name.
    NotFound,
    /// 500: it is refused.
    ServerError,
}
