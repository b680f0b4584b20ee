// How a connection is let go.
ghost use Rattle.std.specs.Prelude.{◌≡◌, if◌then◌else◌};
ghost use Rattle.tcp_wire.specs.Replies.{refuses};

/// How a connection was let go.
#[derive(Clone, Copy, Debug, PartialEq, Eq)]
pub enum Parting {
    /// At once, or as soon as it has taken what is queued.
    Shut,
    /// And then what the client goes on to send is dropped, so that no reset takes the reply from it.
    Drained,
}

impl Parting {
    /// How one is let go whose last reply refused a request, or did not.
    pub fn of(refused: bool) -> Parting
        ensures { result ≡ (if refused then Parting.Drained else Parting.Shut) }
    {
        if refused {
            Parting::Drained
        } else {
            Parting::Shut
        }
    }
}

/// The reply refuses a request before all of it was read.
pub fn refuses(reply: &[u8]) -> bool
    ensures { result ≡ refuses reply.now }
{
    reply.starts_with(b"HTTP/1.1 400 ") || reply.starts_with(b"HTTP/1.1 405 ")
}
