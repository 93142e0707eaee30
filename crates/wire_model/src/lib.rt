//! What may happen in a world of connections, and to connections whose two ends are apart, and what
//! holds after any of it.
//!
//! A world has a pool, connections, the calls that were made over them, and one handler with its
//! log. `specs/Happening.antt` says how each event changes it, and `specs/Machines.antt` defines the
//! machine of calls and entries, whose states worlds show. `laws` says that every run of a world
//! shows a run of the machine, and what holds in each state of the machine.
//!
//! Where the ends of a connection are apart there are a client here, a server there, and bytes in
//! flight between them. Neither end knows more of the other than the bytes that arrive.
//! `specs/Channels.antt` says what may be done at either end, and what may happen to the bytes.
//! `specs/Owners.antt` says what the owner of one end does, call by call, seen from that end alone.
//! `pair_laws` says that the headline holds of the calls as their owners record them, and that owners
//! who each tell only what they did themselves have one run in common, if bytes arrive in order.
//! `specs/Alone.antt` says what holds of a client whoever answers it, `specs/Strangers.antt` what
//! holds of servers whoever asks them, and of pairs beside strangers, and `specs/Work.antt` what there
//! is to do at a pair until it is quiet.
//!
//! Uses wire_peer and wire_pool, and the code of wire_stream. Used by what has an end of a connection,
//! as wire_end, or a world of them, as wire_world. Read first: `events`, then `specs/Happening.antt`
//! and `specs/Machines.antt`, and then `laws`; of ends that are apart `specs/Channels.antt` and
//! `specs/Seen.antt`, then `specs/Owners.antt`, `specs/Deeds.antt` and `specs/Knowing.antt`, and then
//! `pair_laws`.
#![tactic(auto)]

mod events;
pub mod laws;
mod limits;
mod needs;
pub mod pair_laws;
mod refusals;
mod reports;
mod sending;

pub use events::Event;
pub use limits::WorldLimits;
pub use needs::Needs;
pub use refusals::{SetupRefusal, WorldRefusal};
pub use reports::Report;
pub use sending::send_some;
