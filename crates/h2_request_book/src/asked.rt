//! What a request asks for: what the book looks an answer up by. The definition is `Request` of `h2_spec`,
//! specs/Requests/Request.antt;
//! `specs/Asked.antt` says how contracts see it.

/// What well-formed fields ask for; method and path are lent by the fields.
#[derive(Clone, Copy)]
pub struct Request<'a> {
    /// Whether the method is CONNECT (RFC 9113, 8.5).
    pub connect: bool,
    /// The value of `:method`.
    pub method: &'a [u8],
    /// The value of `:path`; empty for CONNECT.
    pub path: &'a [u8],
    /// The number of the `content-length`, below 10^18, or none where there is no such field (RFC 9113, 8.1.1).
    pub declared: Option<u64>,
}
