// The list of the files that earlier runs wrote into a folder.
//
// The list is the file `.expandm` of the folder: a line that says what it is, and then a path in
// each line. `--write` overwrites the files of this list, and no others. A path with a line feed
// isn't listed, so its file is never overwritten.
use std::alloc::{AllocError, Global};
use std::collections::BTreeSet;

/// The name of the file that has the list.
pub const LIST_NAME: &str = ".expandm";

// The first line of the list.
const HEADER: &str = "Files that expandm wrote into this folder, which it may overwrite:\n";

/// Returns the paths of a list, in order; `None` if the text isn't a list.
pub fn listed_paths(text: &str) -> Option<&str> {
    text.strip_prefix(HEADER)
}

/// Returns the paths of a list as a set.
pub fn path_set<'t>(alloc: Global, paths: &'t str) -> Result<BTreeSet<&'t str>, AllocError> {
    let mut set = BTreeSet::new(alloc);
    for path in paths.split('\n') {
        if !path.is_empty() {
            set.insert(path)?;
        }
    }
    Ok(set)
}

/// Returns the list of the paths that `paths` lists, and then of the targets that it doesn't list.
pub fn list_with(
    alloc: Global,
    paths: &str,
    targets: &[Option<String>],
) -> Result<String, AllocError> {
    let known = path_set(alloc, paths)?;
    let mut list = String::from_str(alloc, HEADER)?;
    list.push_str(paths)?;
    for target in targets {
        if let Some(target) = target
            && !target.contains('\n')
            && !known.contains(target.as_str())
        {
            list.push_str(target.as_str())?;
            list.push('\n')?;
        }
    }
    Ok(list)
}
