//! Checks documents and messages for programs in C, walks over them, writes the texts of documents,
//! reads messages in pieces, builds documents and messages, is the client's end or the server's of a
//! connection, and lends connections of a pool.
//!
//! Each export hands its arguments to the function of byte_views or core_handles that
//! its comment names, and promises what that one does. None has a `requires`, so a C program only
//! has to do what the types say. `include/lughemra.h` says what that is. It also has a second form
//! of each function that takes pointers, without `_nonnull` in its name, which takes a null pointer
//! for no bytes, or for a handle of no core. What reads whole messages takes memory to sort the
//! names of a body, and does it without memory, in more time, if there is none. What writes texts
//! or messages takes memory for them, and so do handles.
//!
//! Uses byte_views and core_handles. Used by programs in C. Read first:
//! `include/lughemra.h`.
#![tactic(auto)]

mod builds;
mod clients;
mod documents;
mod messages;
mod pools;
mod servers;
mod texts;
mod walks;
