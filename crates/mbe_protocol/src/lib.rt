// The protocol between editors and language servers, without knowing of macros: the Language Server
// Protocol 3.17 over standard input and output.
//
// - `frames`: messages in a stream of bytes, each after a header with its length.
// - `messages`: requests and notifications of JSON-RPC, and replies to them.
// - `positions`: lines and columns of editors, and bytes of texts.
// - `documents`: the texts that an editor has open, and its edits.
// - `uris`: names of files.
#![tactic(auto)]

pub mod documents;
pub mod frames;
pub mod messages;
pub mod positions;
pub mod uris;
