//! Serves many connections in one thread, over links that never wait.
//!
//! A `ServerConnection` stands between the bytes of a connection and a `Server`, since requests are
//! spelled in two ways: as OP_MSG, and as OP_QUERY to a database's `$cmd`, which is older (MongoDB
//! Wire Protocol manual: OP_QUERY, OP_REPLY). It feeds messages to the server as they are. In place
//! of a query it feeds the message of it, whose body names the database, and in place of the reply
//! to that it puts out an OP_REPLY with the reply's ids and body. So a handler and its log are
//! asked nothing but messages. Requests are taken in turns: no byte is taken while a request waits
//! or a reply isn't sent, so replies go out in the order of the requests.
//!
//! A `Slot` has one connection: a `ServerConnection`, its link, and the bytes that came. It is
//! served by turns of a bounded number of steps: it sends what waits, else answers the first
//! request, else takes what came, else receives. `Connections` holds many slots, with one handler
//! and its log.
//!
//! `laws` says what comes of the turns of one slot, whatever others do in between: its requests are
//! answered in order, each once, and what is sent are their replies.
//!
//! `owner_laws` says that who serves connections is an owner of servers: it makes one for each
//! connection, feeds it the messages that the connection's bytes spell, has it answer, and sends
//! what it gave (`specs/Owning.antt`). So what `wire_model::pair_laws` says of servers holds of the
//! connections here, whatever is done with it and whatever their links do.
//!
//! Uses wire_model, wire_peer and wire_query. Used by bsonserver, wire_share and shared_proxy. Read
//! first: `server_connection` and `passing`, then `slot` and `connections`, and then `owner_laws`.
#![tactic(auto)]

mod cause;
mod connections;
mod gated_link;
mod head;
pub mod laws;
pub mod owner_laws;
mod passing;
mod respelling;
mod server_connection;
mod slot;
mod turned;

pub use cause::{CloseCause, ConnState};
pub use connections::Connections;
pub use gated_link::{Gate, Gated, GatedLink};
pub use head::MAX_QUERY_LEN;
pub use server_connection::ServerConnection;
pub use slot::Slot;
pub use turned::{Leave, OpenRefusal, Turned};
