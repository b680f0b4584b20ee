// Connections over a wire in memory, and over a socket.
mod no_pages;
mod runs;
mod socket;
