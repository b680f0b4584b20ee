//! What a connection is answered: request heads, the bytes of replies, and sessions over data that
//! may change. Definitions and laws, no engine.
#![tactic(auto)]

mod laws;

pub use laws::{
    SomePages, closed_stays_closed, one_answer, one_cut, one_cut_of_a_stream, one_front,
};

/// What a request asks for.
#[derive(Clone, Copy, Debug, PartialEq, Eq)]
pub enum RequestKind {
    /// A page, with its text.
    Get,
    /// A page, without its text.
    Head,
    /// Nothing that the server understands.
    BadRequest,
    /// Something of another host.
    Misdirected,
    /// Something by another method.
    WrongMethod,
}

/// What a request asks for, and how its reply is sent.
#[derive(Clone, Copy, Debug, PartialEq, Eq)]
pub struct ParsedRequest {
    pub kind: RequestKind,
    /// The reply has no body: the request is a whole head whose method is HEAD.
    pub no_body: bool,
    /// The connection closes after the reply, whatever else holds.
    pub close: bool,
}

/// How an answer leaves its connection.
#[derive(Clone, Copy, Debug, PartialEq, Eq)]
pub enum Standing {
    /// More may be sent.
    Open,
    /// The last reply has closed it, or its input has ended.
    Closed,
    /// Memory was missing for a reply, and a 503 is in its place.
    Short,
}
