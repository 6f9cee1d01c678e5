// The files that the program read: manifests, lock files, Cargo's settings, listings of folders.
use crate::problem::{Problem, problem_at};
use std::alloc::{AllocError, Global};
use toml::Value;

/// A file or a folder that was asked for.
#[derive(Drop)]
pub struct Document {
    pub path: String,
    /// The text of the file, or the names in the folder, one a line; `None` if there is none.
    pub text: Option<String>,
    /// The content of a TOML file.
    pub value: Option<Value>,
}

/// The state of a path: unread, absent or found.
#[derive(Drop)]
pub enum Lookup<'d> {
    /// The program has not been asked for it.
    Unread,
    /// There is no such file.
    Absent,
    Found(&'d Document),
}

/// A file or a folder that the plan needs.
#[derive(Drop)]
pub struct Need {
    pub path: String,
    /// Whether the names in the folder are needed.
    pub is_folder: bool,
}

fn is_toml(path: &str) -> bool {
    path.ends_with(".toml") || path.ends_with("/Cargo.lock") || path.ends_with("/.cargo/config")
}

// Returns the number of the line and the column of that byte, from 1.
fn position_of(text: &str, offset: usize) -> (usize, usize) {
    let (mut line, mut column) = (1usize, 1usize);
    for (at, c) in text.char_indices() {
        if at >= offset {
            break;
        }
        if c == '\n' {
            line = line.saturating_add(1);
            column = 1;
        } else {
            column = column.saturating_add(1);
        }
    }
    (line, column)
}

fn syntax_error(
    alloc: Global,
    path: &str,
    text: &str,
    error: &toml::de::Error,
) -> Result<Problem, AllocError> {
    let offset = match error.span() {
        Some(span) => span.start,
        None => 0,
    };
    let message = String::from_str(alloc, error.message())?;
    problem_at(alloc, path, position_of(text, offset), message)
}

// Returns the content of a TOML file. The inner error says where it isn't TOML.
fn parsed(
    alloc: Global,
    path: &str,
    text: &str,
) -> Result<Result<Option<Value>, Problem>, AllocError> {
    match toml::table_from_str(alloc, text) {
        Ok(table) => Ok(Ok(Some(Value::Table(table)))),
        Err(error) if error.is_memory() => Err(AllocError),
        Err(error) => Ok(Err(syntax_error(alloc, path, text, &error)?)),
    }
}

// Returns the content of a file, if it is a TOML file.
fn content(
    alloc: Global,
    path: &str,
    text: &Option<String>,
) -> Result<Result<Option<Value>, Problem>, AllocError> {
    match text {
        Some(text) if is_toml(path) => parsed(alloc, path, text.as_str()),
        _ => Ok(Ok(None)),
    }
}

impl Document {
    /// Reads the text of a file. The inner error says where it isn't TOML.
    pub fn read(
        alloc: Global,
        path: &str,
        text: Option<String>,
    ) -> Result<Result<Document, Problem>, AllocError> {
        match content(alloc, path, &text)? {
            Ok(value) => Ok(Ok(Document {
                path: String::from_str(alloc, path)?,
                text,
                value,
            })),
            Err(problem) => Ok(Err(problem)),
        }
    }

    /// Returns a member of the file's table.
    pub fn member(&self, key: &str) -> Option<&Value> {
        match &self.value {
            Some(value) => member(value, key),
            None => None,
        }
    }

    /// Returns the names of a folder, in order.
    pub fn names(&self, alloc: Global) -> Result<Vec<&str>, AllocError> {
        let mut names = Vec::new(alloc);
        if let Some(text) = &self.text {
            add_parts(text.as_str(), '\n', &mut names)?;
        }
        names.sort_unstable();
        Ok(names)
    }
}

/// Adds the parts of a text between separators. Empty parts are left out.
pub fn add_parts<'d>(
    text: &'d str,
    separator: char,
    parts: &mut Vec<&'d str>,
) -> Result<(), AllocError> {
    for part in text.split(separator) {
        if !part.is_empty() {
            parts.push(part)?;
        }
    }
    Ok(())
}

/// Returns a member of a table; `None` if there is none, or if the value isn't a table.
pub fn member<'d>(value: &'d Value, key: &str) -> Option<&'d Value> {
    value.get(key)
}

/// Returns a member of a member of a table.
pub fn member_in<'d>(value: &'d Value, table: &str, key: &str) -> Option<&'d Value> {
    member(member(value, table)?, key)
}

/// Returns the text of a member of a table; `None` if there is none, or if it isn't a text.
pub fn text_at<'d>(value: &'d Value, key: &str) -> Option<&'d str> {
    member(value, key)?.as_str()
}

/// Whether a member of a table is this text.
pub fn is_text(value: &Value, key: &str, text: &str) -> bool {
    match text_at(value, key) {
        Some(own) => own == text,
        None => false,
    }
}

/// Returns the boolean of a member of a table.
pub fn flag_at(value: &Value, key: &str) -> Option<bool> {
    member(value, key)?.as_bool()
}

/// Whether a member of a table is `true`.
pub fn is_set(value: &Value, key: &str) -> bool {
    flag_at(value, key).unwrap_or(false)
}

/// Returns the texts of a list.
pub fn texts_of<'d>(alloc: Global, value: Option<&'d Value>) -> Result<Vec<&'d str>, AllocError> {
    let mut texts = Vec::new(alloc);
    add_texts(value, &mut texts)?;
    Ok(texts)
}

/// Adds the texts of a list.
pub fn add_texts<'d>(value: Option<&'d Value>, texts: &mut Vec<&'d str>) -> Result<(), AllocError> {
    if let Some(Value::Array(items)) = value {
        for item in items.iter() {
            if let Some(text) = item.as_str() {
                texts.push(text)?;
            }
        }
    }
    Ok(())
}
