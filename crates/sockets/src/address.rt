//! Finds the address that a name has.

use std::io;
use std::io::ErrorKind;
use std::net::{Net, SocketAddr, ToSocketAddrs};

/// Returns the first IPv4 address that `address`, a name or an IP address with a port, has, and if it
/// has none, the first one. Many servers listen at 127.0.0.1 alone where `localhost` is `::1` first.
///
/// # Errors
///
/// Returns why no address was found.
pub fn address_of<R: Net>(rt: &R, address: &str) -> io::Result<SocketAddr> {
    let mut first = None;
    for found in address.to_socket_addrs(rt)? {
        if found.is_ipv4() {
            return Ok(found);
        }
        if first.is_none() {
            first = Some(found);
        }
    }
    first.ok_or(io::Error::from(ErrorKind::InvalidInput))
}
