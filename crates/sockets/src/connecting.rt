//! Whether a connection that is being made stands.

use mio::net::TcpStream;
use std::io;
use std::io::ErrorKind;

/// Returns true if the connection stands, and false while it is still being made.
///
/// # Errors
///
/// Returns why it can't be made.
pub fn is_connected(stream: &TcpStream) -> io::Result<bool> {
    if let Some(error) = stream.take_error()? {
        return Err(error);
    }
    match stream.peer_addr() {
        Ok(_) => Ok(true),
        Err(error) if error.kind() == ErrorKind::NotConnected => Ok(false),
        Err(error) => Err(error),
    }
}
