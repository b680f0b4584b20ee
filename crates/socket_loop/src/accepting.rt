// How connections are taken from a listener.
use std::io::ErrorKind;
use std::net::{Net, OpenListener, SocketAddr};
use std::os::fd::AsRawFd;

/// What a listener gives at once.
pub enum Arrival<S> {
    Came(S),
    /// No connection waits.
    Nobody,
    Failed,
}

/// A connection that waits to be taken.
pub fn take_waiting<L: OpenListener>(listener: &L) -> Arrival<L::Stream> {
    match listener.accept() {
        Ok((stream, _)) => Arrival::Came(stream),
        Err(error) if error.kind() == ErrorKind::WouldBlock => Arrival::Nobody,
        Err(_) => Arrival::Failed,
    }
}

/// A listener at this address whose calls don't wait. As many connections as the system allows wait to be taken.
pub fn listen_at<R: Net>(net: &R, address: SocketAddr) -> Option<R::Listener> {
    let listener = net.bind(address).ok()?;
    listener.set_nonblocking(true).ok()?;
    // The listener of std lets 128 wait. The system cuts this number to its own limit.
    let _ = libc::net::listen(listener.as_raw_fd(), i32::MAX);
    Some(listener)
}
