// The files of a session on a disk.
//
// `file_reader` reads the files of crates into a `FileSet`. `package` plans the crates of a Cargo
// package, and sets the options of its session. `output_paths` says where expanded files go,
// `write_conflicts` what may not be overwritten, and `written_files` what earlier runs wrote.
// `file_writer` writes the files, or compares them with what is there.
#![tactic(auto)]

pub mod file_reader;
pub mod file_writer;
pub mod output_paths;
pub mod package;
mod package_reader;
pub mod page_file;
pub mod write_conflicts;
pub mod written_files;
