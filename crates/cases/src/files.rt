//! The files of cases: a case is the files of a folder that have one name before their first dot. The text after that
//! dot is the kind of a file.

use std::alloc::Global;
use std::fs::Files;
use std::io::ErrorKind;
use std::{fs, io};

/// The names of the cases of a folder, in the order of their bytes.
///
/// An `Err` says that the folder can't be read, or that memory was refused.
pub fn names_in<R: Files + Alloc<A = Global> + Clone + Drop>(
    rt: &R,
    folder: &str,
) -> io::Result<Vec<String>> {
    let mut names = Vec::new(rt.alloc());
    for entry in fs::read_dir(rt, folder)? {
        let entry = entry?;
        if let Some((name, _)) = entry.file_name().split_once('.') {
            names.push(String::from_str(rt.alloc(), name)?)?;
        }
    }
    names.sort()?;
    names.dedup();
    Ok(names)
}

/// The bytes of the file of this kind of a case, which is named with its folder.
///
/// An `Err` says that there is none, that it can't be read, or that memory was refused.
pub fn file<R: Files + Alloc<A = Global>>(rt: &R, case: &str, kind: &str) -> io::Result<Vec<u8>> {
    fs::read(rt, format!(in rt.alloc(); "{case}.{kind}")?.as_str())
}

/// The same, or `None` where there is no such file.
///
/// An `Err` says that it can't be read, or that memory was refused.
pub fn file_if_any<R: Files + Alloc<A = Global>>(
    rt: &R,
    case: &str,
    kind: &str,
) -> io::Result<Option<Vec<u8>>> {
    match file(rt, case, kind) {
        Ok(bytes) => Ok(Some(bytes)),
        Err(error) if error.kind() == ErrorKind::NotFound => Ok(None),
        Err(error) => Err(error),
    }
}
