// Writes expanded files into a folder: all of them, or none.
//
// Each text is written into a file of another name first, beside its target. When all are written,
// each is renamed. Up to the end, the old file of a target is kept under another name. So if a
// write or a rename fails, the old files come back.
use crate::file_reader::file_text;
use crate::write_conflicts::{OutputPlan, found};
use crate::written_files::{LIST_NAME, list_with};
use mbe_cfg::files::paths::folder_of;
use std::fs::{self, File};
use std::io::{self, Write};
use std::rt::Files;

// The limit of names that are tried for a temporary file.
const MAX_TEMP_NAMES: u32 = 1000;

// A text that is written, and not yet at its target.
#[derive(Drop)]
struct WrittenText {
    target: String,
    temporary: String,
    // Another name of the file that was at the target, and is overwritten.
    old: Option<String>,
    is_renamed: bool,
}

// The files that a run makes.
#[derive(Drop)]
struct WrittenTexts {
    texts: Vec<WrittenText>,
    // The folders that were made, each before those in it.
    folders: Vec<String>,
}

// Writes the whole text into a file, and closes it.
fn write_and_close<W: Write + Drop>(mut file: W, text: &str) -> io::Result<()> {
    file.write_all(text.as_bytes())
}

// Creates a file in the folder, under a name that no other file has.
fn create_temp_file<R: Files + AllocGlobal>(rt: &R, folder: &str) -> io::Result<(String, R::File)> {
    for number in 0..MAX_TEMP_NAMES {
        let name = format!(in rt.alloc(); "{folder}/.expandm-{number}.tmp")?;
        match File::create_new(rt, name.as_str()) {
            Ok(file) => return Ok((name, file)),
            Err(error) if error.kind() == io::ErrorKind::AlreadyExists => {}
            Err(error) => return Err(error),
        }
    }
    Err(io::Error::from(io::ErrorKind::AlreadyExists))
}

// Keeps the old file under a second name in its folder, and returns that name. It is a hard link
// where the file system has them; elsewhere the file is renamed.
fn keep_old<R: Files + AllocGlobal>(rt: &R, path: &str) -> io::Result<String> {
    let folder = folder_of(path);
    for number in 0..MAX_TEMP_NAMES {
        let name = format!(in rt.alloc(); "{folder}/.expandm-{number}.old")?;
        match fs::hard_link(rt, path, name.as_str()) {
            Ok(()) => return Ok(name),
            Err(error) if error.kind() == io::ErrorKind::AlreadyExists => {}
            Err(_) => {
                fs::rename(rt, path, name.as_str())?;
                return Ok(name);
            }
        }
    }
    Err(io::Error::from(io::ErrorKind::AlreadyExists))
}

impl WrittenTexts {
    // Makes a folder and those around it, if they are missing.
    fn make_folder<R: Files + AllocGlobal>(&mut self, rt: &R, folder: &str) -> io::Result<()> {
        let mut path = String::new(rt.alloc());
        for (number, part) in folder.split('/').enumerate() {
            if number > 0 {
                path.push('/')?;
            }
            path.push_str(part)?;
            if part.is_empty() || found(fs::metadata(rt, path.as_str()))?.is_some() {
                continue;
            }
            fs::create_dir(rt, path.as_str())?;
            self.folders
                .push(String::from_str(rt.alloc(), path.as_str())?)?;
        }
        Ok(())
    }

    // Writes a text into a temporary file beside the target.
    fn write<R: Files + AllocGlobal>(
        &mut self,
        rt: &R,
        target: &str,
        text: &str,
    ) -> io::Result<()> {
        let folder = folder_of(target);
        self.make_folder(rt, folder)?;
        let (temporary, file) = create_temp_file(rt, folder)?;
        self.texts.push(WrittenText {
            target: String::from_str(rt.alloc(), target)?,
            temporary,
            old: None,
            is_renamed: false,
        })?;
        write_and_close(file, text)
    }

    // Writes the text of each file that has a target, and the list of all targets, into temporary
    // files. Returns the text of an error.
    fn write_all<R: Files + AllocGlobal>(
        &mut self,
        rt: &R,
        folder: &str,
        plan: &OutputPlan,
        texts: &[String],
    ) -> io::Result<Option<String>> {
        for (target, text) in plan.targets.iter().zip(texts.iter()) {
            if let Some(target) = target {
                let path = format!(in rt.alloc(); "{folder}/{target}")?;
                if let Err(error) = self.write(rt, path.as_str(), text.as_str()) {
                    return Ok(Some(format!(in rt.alloc(); "couldn't write `{path}`: {error}")?));
                }
            }
        }
        let list = list_with(rt.alloc(), plan.listed.as_str(), plan.targets.as_slice())?;
        let path = format!(in rt.alloc(); "{folder}/{LIST_NAME}")?;
        match self.write(rt, path.as_str(), list.as_str()) {
            Ok(()) => Ok(None),
            Err(error) => Ok(Some(format!(in rt.alloc(); "couldn't write `{path}`: {error}")?)),
        }
    }

    // Renames each file to its target. Returns the text of an error.
    fn rename_all<R: Files + AllocGlobal>(&mut self, rt: &R) -> io::Result<Option<String>> {
        for text in &mut self.texts {
            if let Err(error) = text.rename(rt) {
                let path = text.target.as_str();
                return Ok(Some(format!(in rt.alloc(); "couldn't write `{path}`: {error}")?));
            }
        }
        Ok(None)
    }

    // Brings back the old files, as far as that succeeds.
    fn undo<R: Files>(&self, rt: &R) {
        for text in &self.texts {
            text.undo(rt);
        }
        for folder in self.folders.iter().rev() {
            let _ = fs::remove_dir(rt, folder.as_str());
        }
    }

    // Removes the other names of files that were overwritten.
    fn drop_old<R: Files>(&self, rt: &R) {
        for text in &self.texts {
            if let Some(old) = &text.old {
                let _ = fs::remove_file(rt, old.as_str());
            }
        }
    }
}

impl WrittenText {
    // Renames the file to its target. The old file gets another name first.
    fn rename<R: Files + AllocGlobal>(&mut self, rt: &R) -> io::Result<()> {
        if found(fs::symlink_metadata(rt, self.target.as_str()))?.is_some() {
            self.old = Some(keep_old(rt, self.target.as_str())?);
        }
        fs::rename(rt, self.temporary.as_str(), self.target.as_str())?;
        self.is_renamed = true;
        Ok(())
    }

    // Brings back the old file of the target, and removes the temporary file.
    fn undo<R: Files>(&self, rt: &R) {
        if let Some(old) = &self.old {
            let _ = fs::rename(rt, old.as_str(), self.target.as_str());
            // A rename between two names of one file does nothing.
            let _ = fs::remove_file(rt, old.as_str());
        } else if self.is_renamed {
            let _ = fs::remove_file(rt, self.target.as_str());
        }
        if !self.is_renamed {
            let _ = fs::remove_file(rt, self.temporary.as_str());
        }
    }
}

/// Writes each text to its target in the folder, and lists the targets in the folder's list. A text
/// without a target is left out. Missing folders are created. Returns the text of an error; then
/// the folder is unchanged.
pub fn write_texts<R: Files + AllocGlobal>(
    rt: &R,
    folder: &str,
    plan: &OutputPlan,
    texts: &[String],
) -> io::Result<Option<String>> {
    let mut written = WrittenTexts {
        texts: Vec::new(rt.alloc()),
        folders: Vec::new(rt.alloc()),
    };
    let mut message = written.write_all(rt, folder, plan, texts);
    if let Ok(None) = &message {
        message = written.rename_all(rt);
    }
    match &message {
        Ok(None) => written.drop_old(rt),
        _ => written.undo(rt),
    }
    message
}

// Whether the file has that text.
fn has_text<R: Files + AllocGlobal>(rt: &R, path: &str, text: &str) -> io::Result<bool> {
    match file_text(rt, path) {
        Ok(found) => Ok(found.as_str() == text),
        Err(error) => match error.kind() {
            io::ErrorKind::InvalidData | io::ErrorKind::FileTooLarge => Ok(false),
            _ => Err(error),
        },
    }
}

// Returns how the file differs from the text, as the text of an error.
fn difference<R: Files + AllocGlobal>(
    rt: &R,
    path: &str,
    text: &str,
) -> io::Result<Option<String>> {
    let Some(there) = found(fs::metadata(rt, path))? else {
        return Ok(Some(format!(in rt.alloc(); "`{path}` is missing")?));
    };
    if there.is_file() && has_text(rt, path, text)? {
        return Ok(None);
    }
    Ok(Some(format!(in rt.alloc(); "`{path}` differs from the expansion")?))
}

/// Compares each text with the file at its target in the folder. Returns a text for each file that
/// differs or is missing. The inner error is the text of a message: a file can't be read. Nothing
/// is written.
pub fn differences<R: Files + AllocGlobal>(
    rt: &R,
    folder: &str,
    targets: &[Option<String>],
    texts: &[String],
) -> io::Result<Result<Vec<String>, String>> {
    let mut all = Vec::new(rt.alloc());
    for (target, text) in targets.iter().zip(texts.iter()) {
        let Some(target) = target else {
            continue;
        };
        let path = format!(in rt.alloc(); "{folder}/{target}")?;
        match difference(rt, path.as_str(), text.as_str()) {
            Ok(Some(message)) => all.push(message)?,
            Ok(None) => {}
            Err(error) => {
                return Ok(Err(format!(in rt.alloc(); "couldn't read `{path}`: {error}")?));
            }
        }
    }
    Ok(Ok(all))
}
