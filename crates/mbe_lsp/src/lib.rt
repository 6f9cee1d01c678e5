// A language server for macros, over `mbe_session`.
//
// A `Server` answers the content of a message with the messages to send. It knows the texts of open
// documents, also if they aren't saved. It reads other files of their crates from the disk. The
// modules are:
//
// - `server`: the state of a server, and its answers; `requests` and `events` are parts of it.
// - `command`: the server over standard input and output.
// - `workspace`: the crates of documents.
// - `analysis`, `sites`: what a session finds in a crate.
#![tactic(auto)]

mod analysis;
pub mod command;
mod events;
mod requests;
pub mod server;
mod sites;
mod workspace;
