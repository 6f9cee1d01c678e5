// Cargo's settings: the files `.cargo/config.toml`, and what they say about a build.
use crate::cfg_expression::{Cfg, evaluate};
use crate::documents::{Document, Lookup, add_parts, add_texts, member, text_at};
use crate::paths::ancestors;
use crate::problem::Stop;
use crate::workspaces::Files;
use std::alloc::{AllocError, Global};
use toml::Value;

// Adds a file of settings, if there is one. Returns whether it is read.
fn add_settings<'d>(
    files: &mut Files<'d>,
    folder: &str,
    name: &str,
    found: &mut Vec<&'d Document>,
) -> Result<bool, AllocError> {
    match files.look_up_in(folder, name)? {
        Lookup::Unread => return Ok(false),
        Lookup::Absent => {}
        Lookup::Found(document) => found.push(document)?,
    }
    Ok(true)
}

// Adds the files of settings in a folder and above it, the innermost first. Returns whether they
// are read.
fn add_above<'d>(
    files: &mut Files<'d>,
    folder: &str,
    found: &mut Vec<&'d Document>,
) -> Result<bool, AllocError> {
    let mut is_read = true;
    for above in ancestors(files.alloc, folder)?.iter() {
        is_read &= add_settings(files, above.as_str(), ".cargo/config.toml", found)?;
        is_read &= add_settings(files, above.as_str(), ".cargo/config", found)?;
    }
    Ok(is_read)
}

/// Returns Cargo's settings for a folder, the innermost first.
pub fn settings<'d>(
    files: &mut Files<'d>,
    folder: &str,
    cargo_home: Option<&str>,
) -> Result<Vec<&'d Document>, Stop> {
    let mut found = Vec::new(files.alloc);
    let mut is_read = add_above(files, folder, &mut found)?;
    if let Some(home) = cargo_home {
        is_read &= add_settings(files, home, "config.toml", &mut found)?;
    }
    if !is_read {
        return Err(Stop::Unread);
    }
    Ok(found)
}

/// Returns a text of the table `[source.NAME]`, and the file of settings that has it.
pub fn source_text<'d>(
    settings: &[&'d Document],
    name: &str,
    key: &str,
) -> Option<(&'d str, &'d Document)> {
    for document in settings {
        let document: &'d Document = *document;
        if let Some(sources) = document.member("source")
            && let Some(source) = member(sources, name)
            && let Some(text) = text_at(source, key)
        {
            return Some((text, document));
        }
    }
    None
}

/// Returns the target of `[build] target`, and the file of settings that has it. Of several targets
/// the first is returned.
pub fn build_target<'d>(settings: &[&'d Document]) -> Option<(&'d str, &'d Document)> {
    for document in settings {
        let document: &'d Document = *document;
        if let Some(build) = document.member("build")
            && let Some(target) = member(build, "target")
            && let Some(text) = first_text(target)
        {
            return Some((text, document));
        }
    }
    None
}

// Returns a text, or the first of a list.
fn first_text(value: &Value) -> Option<&str> {
    match value {
        Value::Array(items) => items.first()?.as_str(),
        _ => value.as_str(),
    }
}

// ---- flags of rustc

// Adds the words of flags: of a list, each item; of a text, its parts between spaces.
fn add_words<'d>(flags: Option<&'d Value>, words: &mut Vec<&'d str>) -> Result<(), AllocError> {
    match flags {
        Some(Value::String(text)) => add_parts(text.as_str(), ' ', words),
        _ => add_texts(flags, words),
    }
}

// Adds the words of the tables `[target.TRIPLE]` and `[target.'cfg(..)']` that hold for a platform.
fn add_target_words<'d>(
    alloc: Global,
    document: &'d Document,
    triple: &str,
    cfgs: &[Cfg<'_>],
    words: &mut Vec<&'d str>,
) -> Result<(), AllocError> {
    if let Some(Value::Table(targets)) = document.member("target") {
        for (target, table) in targets.iter() {
            if is_for(alloc, target.as_str(), triple, cfgs)? {
                add_words(member(table, "rustflags"), words)?;
            }
        }
    }
    Ok(())
}

// Whether a table `[target.TARGET]` holds for a platform.
fn is_for(alloc: Global, target: &str, triple: &str, cfgs: &[Cfg<'_>]) -> Result<bool, AllocError> {
    if target == triple {
        return Ok(true);
    }
    Ok(target.starts_with("cfg(") && evaluate(alloc, target, cfgs)?.unwrap_or(false))
}

// Adds the words of the tables `[build]`.
fn add_build_words<'d>(
    settings: &[&'d Document],
    words: &mut Vec<&'d str>,
) -> Result<(), AllocError> {
    for document in settings {
        let document: &'d Document = *document;
        if let Some(build) = document.member("build") {
            add_words(member(build, "rustflags"), words)?;
        }
    }
    Ok(())
}

/// Returns the words of rustc's flags. As for Cargo, the first of these that there is counts: the
/// variable RUSTFLAGS, the tables `[target]` for the platform, the table `[build]`.
pub fn flag_words<'d>(
    alloc: Global,
    settings: &[&'d Document],
    triple: &str,
    cfgs: &[Cfg<'_>],
    variable: Option<&'d str>,
) -> Result<Vec<&'d str>, AllocError> {
    let mut words = Vec::new(alloc);
    match variable {
        Some(text) => add_parts(text, ' ', &mut words)?,
        None => add_setting_words(alloc, settings, triple, cfgs, &mut words)?,
    }
    Ok(words)
}

// Adds the words of the tables `[target]` for a platform, or of the tables `[build]` if there are
// none.
fn add_setting_words<'d>(
    alloc: Global,
    settings: &[&'d Document],
    triple: &str,
    cfgs: &[Cfg<'_>],
    words: &mut Vec<&'d str>,
) -> Result<(), AllocError> {
    for document in settings {
        add_target_words(alloc, *document, triple, cfgs, words)?;
    }
    if words.is_empty() {
        add_build_words(settings, words)?;
    }
    Ok(())
}

// Returns the option for `cfg` of a text `NAME` or `NAME="VALUE"`; `None` for any other text.
fn cfg_of(text: &str) -> Option<Cfg<'_>> {
    let (name, value) = match text.split_once('=') {
        Some((name, value)) => {
            let value = value.trim().strip_prefix('"')?.strip_suffix('"')?;
            (name.trim(), Some(value))
        }
        None => (text.trim(), None),
    };
    if name.is_empty() {
        return None;
    }
    Some(Cfg { name, value })
}

/// Returns the options for `cfg` that flags of rustc set: `--cfg X` and `--cfg=X`.
pub fn flag_cfgs<'d>(alloc: Global, words: &[&'d str]) -> Result<Vec<Cfg<'d>>, AllocError> {
    let mut cfgs = Vec::new(alloc);
    let mut is_next = false;
    for word in words {
        let word: &'d str = *word;
        let text = if is_next {
            Some(word)
        } else {
            word.strip_prefix("--cfg=")
        };
        is_next = !is_next && word == "--cfg";
        add_cfg(text, &mut cfgs)?;
    }
    Ok(cfgs)
}

// Adds the option for `cfg` of a text, if it is one.
fn add_cfg<'d>(text: Option<&'d str>, cfgs: &mut Vec<Cfg<'d>>) -> Result<(), AllocError> {
    if let Some(text) = text
        && let Some(cfg) = cfg_of(text)
    {
        cfgs.push(cfg)?;
    }
    Ok(())
}
