//! Plays lists of events on the core of shared connections, without a network.
//!
//! Each line of standard input is an event, as `Player::play` names it; a line of standard output says
//! what it came to. `scripts/model/share-rows` writes lists of events, and what each has to come to.
#![tactic(auto)]

mod player;
mod words;

use anyhow::Result;
use player::Player;
use script_lines::Lines;
use std::io;
use std::io::{Read, Write};

fn main(rt: HostRuntime) -> Result<()> {
    let mut input = Vec::new(rt.alloc());
    let _ = rt.reader().read_to_end(&mut input)?;
    let mut out = io::writer(&rt);
    let mut player = Player::new(rt.alloc());
    for line in Lines::new(&input) {
        player.play(line.text, &mut out)?;
    }
    Ok(out.flush()?)
}
