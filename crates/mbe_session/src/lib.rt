// Expands the macro calls of Rust files and crates, from texts in memory.
//
// A `FileSet` holds the texts of files, also those that an editor hasn't saved. A `Session` reads
// the texts under `SessionOptions`, defines their macros in a `FileExpander`, and replaces each
// call by its expansion. Each `Note` says what is wrong with a file, a definition or a call, and
// the emitter writes notes as text or as JSON:
//
//     let mut options = SessionOptions::new(alloc);
//     options.names.push("main.rs")?;
//     let mut files = FileSet::new(alloc);
//     files.add_root(alloc, &options, "main.rs", text)?;
//     let texts = files.texts.as_slice();
//     let (session, expanded) = expand_files(alloc, &options, &files.roots, texts)?;
//     let notes = session.notes_text(alloc, None)?;
//
// `expanded` has the text of `main.rs` with its calls expanded, and every other byte unchanged. A
// caller who follows modules adds the files that `FileSet::modules` names; the crate `mbe_files`
// reads them from a disk. `lint` checks the definitions of the same texts, and expands nothing.
//
// The modules, by subject:
//
// - Files: `file_set`, `source_files`, `module_files`, `call_modules`, `followed_calls`,
//   `inner_files`, `lines`, `locations`.
// - Options: `session_options`, `source_settings`, `recursion_limit`.
// - Crates: `session`, `crate_expander`, `dollar_crate`, `file_expansion`, `linted_files`.
// - Calls: `file_expander`, `scope`, `imports`, `adjustment`, `cfg_front`, `origins`, `settings`.
// - Diagnostics: `notes`, `call_failure`, `explanation`, `binding_text`, `captures`,
//   `repeat_lengths`, `emitter`, `note_lines`, `call_counts`, `summary`.
#![tactic(auto)]

mod adjustment;
pub mod binding_text;
pub mod call_counts;
pub mod call_failure;
pub mod call_modules;
mod captures;
mod cfg_front;
mod closed_text;
mod crate_expander;
mod dollar_crate;
pub mod emitter;
pub mod explanation;
pub mod file_expander;
mod file_expansion;
pub mod file_set;
pub mod followed_calls;
mod imports;
mod inner_files;
pub mod lines;
pub mod linted_files;
pub mod locations;
mod module_files;
mod note_lines;
pub mod notes;
mod origins;
mod recursion_limit;
mod repeat_lengths;
pub mod scope;
pub mod session;
pub mod session_options;
pub mod settings;
pub mod source_files;
pub mod source_settings;
mod summary;
