//! Begins to listen, and tells where.

ghost use Rattle.std.specs.Prelude.{◌≡◌, None, Ok, OnOk};
ghost use Rattle.std.specs.Io.KnownBytes.{Appends};
ghost use Rattle.sockets.specs.Telling.{listening_line, port_text};

use crate::address::address_of;
use mio::net::TcpListener;
use std::fs::File;
use std::io;
use std::io::Write;
use std::net::{Net, SocketAddr};
use std::rt::Files;

/// Begins to listen at the address that `address_of` finds for `address`.
///
/// # Errors
///
/// Returns why there is no such address, or why nothing can listen there.
pub fn bind<R: Net>(rt: &R, address: &str) -> io::Result<TcpListener> {
    TcpListener::bind(rt, address_of(rt, address)?)
}

/// Writes and flushes the line that says where a listener is.
///
/// # Errors
///
/// Returns an error if writing fails.
pub fn tell_listening<W: Write>(local: SocketAddr, out: &mut W) -> io::Result<()>
    ensures { OnOk result
        (Appends (W.contents out.old) (W.contents out.new) (listening_line local)) }
{
    writeln!(out, "listening {local}")?;
    out.flush()
}

/// Writes a port.
fn write_port<W: Write>(port: u16, out: &mut W) -> io::Result<()>
    ensures { OnOk result (Appends (W.contents out.old) (W.contents out.new) (port_text port)) }
{
    writeln!(out, "{port}")
}

/// Writes the port of a listener and a line feed to a file, if one is given.
///
/// # Errors
///
/// Returns an error if the file can't be written.
pub fn tell_port<R: Files>(rt: &R, file: Option<&str>, port: u16) -> io::Result<()>
    ensures none { file.entry ≡ None → result ≡ Ok tt }
{
    match file {
        Some(file) => write_port(port, &mut File::create(rt, file)?),
        None => Ok(()),
    }
}
