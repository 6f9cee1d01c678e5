// Messages in a stream of bytes. Each has a header, whose line `Content-Length` says how many bytes
// of content follow the empty line.
//
// A header without a valid length is malformed. Reading continues with the next line, so a later
// header is found.

use std::alloc::{AllocError, Global};

// The limit of bytes of a header's line that are kept. A longer line is no `Content-Length`.
const MAX_LINE: usize = 1024;

// The largest content that is read.
const MAX_CONTENT: usize = u32::MAX as usize;

/// What a header and its content are.
#[derive(Drop)]
pub enum Frame {
    /// The content of a message.
    Content(Vec<u8>),
    /// A header that says no length.
    Malformed,
}

/// Reads messages from the bytes of a stream, one byte after another.
#[derive(Drop)]
pub struct FrameReader {
    alloc: Global,
    // The line of the header so far.
    line: Vec<u8>,
    // Whether the header has a line.
    has_line: bool,
    // The length that the header says.
    length: Option<usize>,
    // How many bytes of the content are missing; `None` in a header.
    missing: Option<usize>,
    content: Vec<u8>,
}

// Returns the length that a line of a header says; `None` if it is another line, or has no valid
// length.
fn content_length(line: &[u8]) -> Option<usize> {
    let text = str::from_utf8(line).ok()?;
    let (name, value) = text.split_once(':')?;
    if !name.trim().eq_ignore_ascii_case("content-length") {
        return None;
    }
    let length = value.trim().parse::<usize>().ok()?;
    (length <= MAX_CONTENT).then_some(length)
}

// Whether a line of a header is empty. It may end with a carriage return.
fn is_blank(line: &[u8]) -> bool {
    matches!(line, [] | [b'\r'])
}

impl FrameReader {
    /// Returns a reader at the front of a stream.
    pub fn new(alloc: Global) -> FrameReader {
        FrameReader {
            alloc,
            line: Vec::new(alloc),
            has_line: false,
            length: None,
            missing: None,
            content: Vec::new(alloc),
        }
    }

    /// Whether the reader is between two messages.
    pub fn is_between(&self) -> bool {
        self.missing.is_none() && !self.has_line && self.line.is_empty()
    }

    /// Takes the next byte of the stream. Returns what ends with this byte, if anything does.
    /// `AllocError` if out of memory.
    pub fn accept(&mut self, byte: u8) -> Result<Option<Frame>, AllocError> {
        match self.missing {
            Some(missing) => self.accept_content(byte, missing),
            None if byte == b'\n' => Ok(self.end_line()),
            None => {
                if self.line.len() < MAX_LINE {
                    self.line.push(byte)?;
                }
                Ok(None)
            }
        }
    }

    // Takes a byte of the content. So many bytes of it are still missing.
    fn accept_content(&mut self, byte: u8, missing: usize) -> Result<Option<Frame>, AllocError> {
        self.content.push(byte)?;
        if missing > 1 {
            self.missing = Some(missing - 1);
            return Ok(None);
        }
        self.missing = None;
        Ok(Some(self.end_content()))
    }

    // Returns the content, and is between two messages.
    fn end_content(&mut self) -> Frame {
        Frame::Content(std::mem::replace(&mut self.content, Vec::new(self.alloc)))
    }

    // Ends a line of a header.
    fn end_line(&mut self) -> Option<Frame> {
        if is_blank(self.line.as_slice()) {
            self.line.clear();
            return self.end_header();
        }
        if let Some(length) = content_length(self.line.as_slice()) {
            self.length = Some(length);
        }
        self.has_line = true;
        self.line.clear();
        None
    }

    // Ends a header. Empty lines before a header are none.
    fn end_header(&mut self) -> Option<Frame> {
        let is_header = self.has_line;
        self.has_line = false;
        match self.length.take() {
            Some(0) => Some(self.end_content()),
            Some(length) => {
                self.missing = Some(length);
                None
            }
            None => is_header.then_some(Frame::Malformed),
        }
    }
}

/// Returns a message with its header. `AllocError` if out of memory.
pub fn framed(alloc: Global, content: &str) -> Result<String, AllocError> {
    let length = content.len();
    format!(in alloc; "Content-Length: {length}\r\n\r\n{content}")
}
