// The lines of trees, on a writer that writes few bytes at once, or fails.
use crate::text::prefixes::trees;
use mbe_text::tree_dump::print_tree;
use mbe_tt::tt::TopSubtree;
use std::alloc::{AllocError, Global};
use std::io;
use std::io::Write;
use test_rows::rows;

// Every other call is interrupted. The others write at most seven bytes, and fail once there is no
// room.
#[derive(Drop)]
struct SlowWriter {
    written: Vec<u8>,
    room: usize,
    is_interrupted: bool,
}

impl Write for SlowWriter {
    fn write(&mut self, buf: &[u8]) -> io::Result<usize> {
        self.is_interrupted = !self.is_interrupted;
        if self.is_interrupted {
            return Err(io::Error::from(io::ErrorKind::Interrupted));
        }
        if self.room == 0 {
            return Err(io::Error::from(io::ErrorKind::StorageFull));
        }
        let taken = buf.len().min(self.room).min(7);
        self.written.extend_from_slice(&buf[..taken])?;
        self.room -= taken;
        Ok(taken)
    }

    fn flush(&mut self) -> io::Result<()> {
        Ok(())
    }
}

// Whether a writer with that room gets as many bytes as it has room for, and the rest fails.
fn is_written(alloc: Global, tree: &TopSubtree, want: &[u8], room: usize) -> bool {
    let mut out = SlowWriter {
        written: Vec::new(alloc),
        room,
        is_interrupted: false,
    };
    let is_whole = match print_tree(tree, &mut out) {
        Ok(()) => true,
        Err(error) if error.kind() == io::ErrorKind::StorageFull => false,
        Err(_) => return false,
    };
    is_whole == (want.len() <= room) && out.written.as_slice() == &want[..want.len().min(room)]
}

// The room of each writer: none, about that of a line that is written at once, and enough.
static ROOMS: [usize; 11] = [0, 1, 2, 40, 127, 128, 129, 255, 256, 300, 100_000];

/// Whether these are the lines of a text, whatever room there is.
pub fn is_printed(alloc: Global, text: &str, want: &str) -> Result<bool, AllocError> {
    let tree = trees(alloc, text)?;
    for room in &ROOMS {
        if !is_written(alloc, &tree, want.as_bytes(), *room) {
            return Ok(false);
        }
    }
    Ok(true)
}

// Texts with their lines. Some lines have 127, 128 and 129 bytes; an identifier and a string are
// longer.
pub const PRINTED: &str = rows![
    ("", "SUBTREE $$ 0@0..0 0@0..0\n"),
    (
        "'a(é)",
        "SUBTREE $$ 0@0..6 0@0..6
  PUNCH   ' [joint] 0@0..1
  IDENT   a 0@1..2
  SUBTREE () 0@2..3 0@5..6
    IDENT   é 0@3..5
",
    ),
    (
        "abcdefghijklmnopqrstuvwxyzabcdefghijklmnopqrstuvwxyzabcdefghijklmnopqrstuvwxyzabcdefghijklmnopqrstuvwxyzabc",
        "SUBTREE $$ 0@0..107 0@0..107
  IDENT   abcdefghijklmnopqrstuvwxyzabcdefghijklmnopqrstuvwxyzabcdefghijklmnopqrstuvwxyzabcdefghijklmnopqrstuvwxyzabc 0@0..107
",
    ),
    (
        "abcdefghijklmnopqrstuvwxyzabcdefghijklmnopqrstuvwxyzabcdefghijklmnopqrstuvwxyzabcdefghijklmnopqrstuvwxyzabcd",
        "SUBTREE $$ 0@0..108 0@0..108
  IDENT   abcdefghijklmnopqrstuvwxyzabcdefghijklmnopqrstuvwxyzabcdefghijklmnopqrstuvwxyzabcdefghijklmnopqrstuvwxyzabcd 0@0..108
",
    ),
    (
        "abcdefghijklmnopqrstuvwxyzabcdefghijklmnopqrstuvwxyzabcdefghijklmnopqrstuvwxyzabcdefghijklmnopqrstuvwxyzabcde",
        "SUBTREE $$ 0@0..109 0@0..109
  IDENT   abcdefghijklmnopqrstuvwxyzabcdefghijklmnopqrstuvwxyzabcdefghijklmnopqrstuvwxyzabcdefghijklmnopqrstuvwxyzabcde 0@0..109
",
    ),
    (
        "\"abcdefghijklmnopqrstuvwxyz abcdefghijklmnopqrstuvwxyz abcdefghijklmnopqrstuvwxyz abcdefghijklmnopqrstuvwxyz abcdefghijklmnopqrstuvwxyz\"u8",
        "SUBTREE $$ 0@0..138 0@0..138
  LITERAL Str abcdefghijklmnopqrstuvwxyz abcdefghijklmnopqrstuvwxyz abcdefghijklmnopqrstuvwxyz abcdefghijklmnopqrstuvwxyz abcdefghijklmnopqrstuvwxyzu8 0@0..138
",
    ),
];

// Returns the lines of seventy nested groups.
fn push_groups(want: &mut String) -> Result<(), AllocError> {
    want.push_str("SUBTREE $$ 0@0..70 0@0..70\n")?;
    for start in 0..70usize {
        for _around in 0..=start {
            want.push_str("  ")?;
        }
        writeln!(want, "SUBTREE [] 0@{start}..{} 0@70..70", start + 1)?;
    }
    Ok(())
}

/// Whether two spaces are written for each group around. Seventy groups are more than one write
/// holds.
pub fn is_indented(alloc: Global) -> Result<bool, AllocError> {
    let text = "[".repeat(alloc, 70)?;
    let mut want = String::new(alloc);
    push_groups(&mut want)?;
    is_printed(alloc, text.as_str(), want.as_str())
}
