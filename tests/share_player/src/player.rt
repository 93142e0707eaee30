//! Does with a core what events say.

use crate::words::Words;
use anyhow::{Result, bail};
use std::alloc::Global;
use std::io::Write;
use wire_serve::ConnState;
use wire_share::{Core, Place, Use};

/// The core that is played on.
#[derive(Drop)]
pub struct Player {
    alloc: Global,
    core: Core,
}

/// Writes how a connection is used.
fn write_used<W: Write>(used: Use, out: &mut W) -> Result<()> {
    match used {
        Use::Shared => writeln!(out, "new shared")?,
        Use::Once => writeln!(out, "new once")?,
        Use::Kept(client) => writeln!(out, "new kept {client}")?,
        Use::Transaction(client) => writeln!(out, "new transaction {client}")?,
        Use::Over => writeln!(out, "new over")?,
    }
    Ok(())
}

/// Writes bytes in hexadecimal digits, or `-` for none.
fn write_bytes<W: Write>(bytes: &[u8], out: &mut W) -> Result<()> {
    for byte in bytes.iter() {
        write!(out, "{byte:02x}")?;
    }
    writeln!(out, "{}", if bytes.is_empty() { "-" } else { "" })?;
    Ok(())
}

impl Player {
    /// Begins without connections.
    pub fn new(alloc: Global) -> Player {
        Player {
            alloc,
            core: Core::new(alloc),
        }
    }

    /// Feeds all of these bytes to a client, as far as it takes them. Returns how many it took.
    fn comes(&mut self, number: u64, bytes: &[u8]) -> usize {
        let mut taken = 0;
        for _ in 0..bytes.len() {
            match self.core.take(number, bytes.get(taken..).unwrap_or(&[])) {
                Ok(n) if n > 0 => taken += n,
                _ => break,
            }
        }
        taken
    }

    /// Feeds all of these bytes to a connection, as far as it takes them. Returns how many it took.
    fn replies(&mut self, upstream: u64, bytes: &[u8]) -> usize {
        let mut taken = 0;
        for _ in 0..bytes.len() {
            match self
                .core
                .take_up(upstream, bytes.get(taken..).unwrap_or(&[]))
            {
                Ok(n) if n > 0 => taken += n,
                _ => break,
            }
        }
        taken
    }

    /// Writes whether a client is there, open, asks, and awaits a reply.
    fn write_client<W: Write>(&self, number: u64, out: &mut W) -> Result<()> {
        let Some(client) = self.core.client(number) else {
            writeln!(out, "gone")?;
            return Ok(());
        };
        if !matches!(client.state(), ConnState::Open) {
            writeln!(out, "closed")?;
            return Ok(());
        }
        let asks = if client.asks() { " asks" } else { "" };
        match client.awaited() {
            Some(call) => writeln!(out, "open{asks} awaits {}", call.upstream)?,
            None => writeln!(out, "open{asks}")?,
        }
        Ok(())
    }

    /// Writes whether a connection to the server is there, has a reply ready, and is done.
    fn write_server<W: Write>(&self, upstream: u64, out: &mut W) -> Result<()> {
        let Some(server) = self.core.server(upstream) else {
            writeln!(out, "gone")?;
            return Ok(());
        };
        let ready = if server.reply().is_some() {
            " ready"
        } else {
            ""
        };
        let done = if self.core.is_done(upstream) {
            " done"
        } else {
            ""
        };
        writeln!(out, "there{ready}{done}")?;
        Ok(())
    }

    /// Writes over which connection the request of a client goes.
    fn write_place<W: Write>(&self, number: u64, shared: u64, out: &mut W) -> Result<()> {
        match self.core.place(number, Some(shared)) {
            Some(Place::At(upstream)) => writeln!(out, "at {upstream}")?,
            Some(Place::New(used)) => write_used(used, out)?,
            Some(Place::Gone(upstream)) => writeln!(out, "gone {upstream}")?,
            None => writeln!(out, "none")?,
        }
        Ok(())
    }

    /// Does what an event of a client says.
    fn play_client<W: Write>(
        &mut self,
        event: &[u8],
        number: u64,
        words: &mut Words<'_>,
        out: &mut W,
    ) -> Result<bool> {
        match event {
            b"comes" => {
                let Some(bytes) = words.bytes(self.alloc) else {
                    bail!("no bytes");
                };
                writeln!(out, "took {}", self.comes(number, &bytes))?;
            }
            b"ends" => {
                self.core.end(number);
                self.write_client(number, out)?;
            }
            b"client" => self.write_client(number, out)?,
            b"place" => self.write_place(number, words.number(), out)?,
            b"pass" => {
                let passed = self.core.pass(number, words.number()).is_ok();
                writeln!(out, "{}", if passed { "passed" } else { "not passed" })?;
            }
            b"gets" => {
                write_bytes(self.core.output(number), out)?;
                let all = self.core.output(number).len();
                self.core.sent(number, all);
            }
            b"close" => {
                self.core.close(number);
                self.write_client(number, out)?;
            }
            _ => return Ok(false),
        }
        Ok(true)
    }

    /// Does what an event of a connection to the server says.
    fn play_server<W: Write>(
        &mut self,
        event: &[u8],
        upstream: u64,
        words: &mut Words<'_>,
        out: &mut W,
    ) -> Result<()> {
        match event {
            b"goes" => {
                write_bytes(self.core.server_output(upstream), out)?;
                let all = self.core.server_output(upstream).len();
                self.core.sent_up(upstream, all);
            }
            b"replies" => {
                let Some(bytes) = words.bytes(self.alloc) else {
                    bail!("no bytes");
                };
                writeln!(out, "took {}", self.replies(upstream, &bytes))?;
            }
            b"server" => self.write_server(upstream, out)?,
            b"give" => {
                let given = self.core.give(upstream, words.number()).is_ok();
                writeln!(out, "{}", if given { "given" } else { "not given" })?;
            }
            b"release" => {
                self.core.release(upstream);
                self.write_server(upstream, out)?;
            }
            b"lose" => {
                self.core.lose(upstream);
                self.write_server(upstream, out)?;
            }
            b"finish" => {
                self.core.finish(upstream);
                self.write_server(upstream, out)?;
            }
            _ => bail!("no event"),
        }
        Ok(())
    }

    /// Does what an event says, and writes what it came to.
    ///
    /// Those of a client are `comes N BYTES`, `ends N`, `client N`, `place N SHARED`, `pass N U`,
    /// `gets N` and `close N`, those of a connection to the server `goes U`, `replies U BYTES`,
    /// `server U`, `give U N`, `release U`, `lose U` and `finish U`; `new` begins anew, `accept`
    /// accepts a client, and `open USE` opens a connection.
    pub fn play<W: Write>(&mut self, line: &[u8], out: &mut W) -> Result<()> {
        let mut words = Words::new(line);
        match words.word() {
            b"new" => {
                self.core = Core::new(self.alloc);
                writeln!(out, "new")?;
            }
            b"accept" => writeln!(out, "client {}", self.core.accept().unwrap_or(0))?,
            b"open" => {
                let Some(used) = words.used() else {
                    bail!("no use");
                };
                writeln!(out, "server {}", self.core.open(used).unwrap_or(0))?;
            }
            event => {
                let number = words.number();
                if !self.play_client(event, number, &mut words, out)? {
                    self.play_server(event, number, &mut words, out)?;
                }
            }
        }
        Ok(())
    }
}
