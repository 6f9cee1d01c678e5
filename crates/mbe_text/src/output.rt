// Output to an `io::Write`, line by line.
//
// A line is collected in a buffer of 128 bytes, so that a short line is one call of the writer.
ghost use Rattle.std.specs.Prelude.{◌≡◌, ◌++◌, [], OnOk, flat_map};
ghost use Rattle.mbe_text.specs.TreeDump.{indentation, line};
ghost use Rattle.mbe_text.specs.WriterBytes.{Holds, Writes};

use arrayvec::ArrayVec;
use std::io;
use std::io::Write;

// The part of a line that isn't written yet. A text that doesn't fit is written at once.
type LineBuffer = ArrayVec<u8, 128>;

/// Writes all the bytes, in as many calls of the writer as that takes.
///
/// Returns the writer's first error, but tries again after an interrupted call. On an error, the
/// bytes that the writer took are a prefix of `bytes`. A writer that takes no byte is an error
/// too.
pub fn write_whole<W: Write>(bytes: &[u8], out: &mut W) -> io::Result<()>
    ensures { Writes (W.contents out.old) (W.contents out.new) result bytes.now }
{
    let mut rest = bytes;
    'calls: for _call in 0..u64::MAX {
        if rest.is_empty() {
            return Ok(());
        }
        match out.write(rest) {
            Ok(0) => return Err(io::Error::from(io::ErrorKind::WriteZero)),
            Ok(taken) => rest = &rest[taken..],
            Err(error) => {
                if error.kind() != io::ErrorKind::Interrupted {
                    return Err(error);
                }
            }
        }
    }
    Err(io::Error::from(io::ErrorKind::Interrupted))
}

// Writes the line, and then the bytes that don't fit into it.
fn overflow<W: Write>(line: &mut LineBuffer, bytes: &[u8], out: &mut W) -> io::Result<()>
    ensures written { Writes (W.contents out.old) (W.contents out.new) result
        (line.old.items ++ bytes.now) }
    ensures empty { OnOk result (line.new.items ≡ []) }
{
    write_whole(line.as_slice(), out)?;
    line.clear();
    write_whole(bytes, out)
}

// Adds a text to the line.
fn push<W: Write>(line: &mut LineBuffer, text: &str, out: &mut W) -> io::Result<()>
    ensures { Holds (W.contents out.old) (W.contents out.new) result
        (line.old.items ++ text.now) line.new.items }
{
    let bytes = text.as_bytes();
    match line.try_extend_from_slice(bytes) {
        Ok(()) => Ok(()),
        Err(_) => overflow(line, bytes, out),
    }
}

// Adds the indentation of a line: two spaces for each of `depth` groups around it.
fn indent<W: Write>(line: &mut LineBuffer, depth: usize, out: &mut W) -> io::Result<()>
    ensures { Holds (W.contents out.old) (W.contents out.new) result
        (line.old.items ++ indentation depth) line.new.items }
{
    'groups: for _group in 0..depth {
        push(line, "  ", out)?;
    }
    Ok(())
}

// Adds the texts one after another.
fn push_all<W: Write>(line: &mut LineBuffer, texts: &[&str], out: &mut W) -> io::Result<()>
    ensures { Holds (W.contents out.old) (W.contents out.new) result
        (line.old.items ++ flat_map (λ t. t.now) texts.now) line.new.items }
{
    'texts: for text in texts {
        push(line, text, out)?;
    }
    Ok(())
}

// Writes a line of these texts, indented for `depth` groups around it. A line that fits into the
// buffer is one call of the writer.
pub(crate) fn write_line<W: Write>(depth: usize, texts: &[&str], out: &mut W) -> io::Result<()>
    ensures { Writes (W.contents out.old) (W.contents out.new) result
        (line depth (flat_map (λ t. t.now) texts.now)) }
{
    let mut line = ArrayVec::new();
    indent(&mut line, depth, out)?;
    push_all(&mut line, texts, out)?;
    push(&mut line, "\n", out)?;
    write_whole(line.as_slice(), out)
}
