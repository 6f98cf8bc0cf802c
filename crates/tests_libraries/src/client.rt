//! Calls over sockets.
mod example;
mod sockets;
