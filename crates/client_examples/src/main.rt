//! Examples of clients over wire_end, told apart by the first word.
//!
//! `client_examples ping ADDRESS` pings a server and prints the reply, `client_examples pipelined
//! ADDRESS` has 100 calls outstanding at once, and `client_examples pair SEED [CALLS]` runs a client
//! and a server in one process. The exit status is 0, or 1 whatever fails.
//!
//! Stands on wire_end and bson_text, and on the code of wire_peer. Each example is a module. Read
//! first: `ping`, then `pipelined`, and then `pair`.
#![tactic(auto)]

mod pair;
mod ping;
mod pipelined;

use anyhow::{Result, bail};
use std::env;

fn main(rt: HostRuntime) -> Result<()> {
    let mut words = env::args(&rt)?;
    let Some(example) = words.nth(1) else {
        bail!("usage: client_examples ping ADDRESS | pipelined ADDRESS | pair SEED [CALLS]");
    };
    match example.as_str() {
        "ping" => ping::run_words(&rt, words),
        "pipelined" => pipelined::run_words(&rt, words),
        "pair" => pair::run_words(&rt, words),
        _ => bail!("usage: client_examples ping ADDRESS | pipelined ADDRESS | pair SEED [CALLS]"),
    }
}
