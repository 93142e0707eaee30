//! What a page in a browser calls: checks, walks, texts and messages, without memory.
//!
//! Each export hands its arguments to the function of byte_views that its comment names, and
//! promises what that one does. A module for wasm64 has no allocator of the kit's, so only what
//! takes no memory is here: messages are read without sorting the names of a body, and texts have
//! at most 64 KiB. `page/build` builds these sources for wasm64.
//!
//! Uses byte_views. Used by `page/module.js`. Read first: `documents`.
#![tactic(auto)]

mod documents;
mod messages;
mod walks;
