// A file saved whole: its bytes go to a new file beside it, which takes its name only when all of them have reached the device.
// So a name holds the old bytes or the new ones, whatever fails on the way; a failure takes the new file away again, if the system lets it.
ghost use Rattle.std.specs.Prelude.{◌+◌, ◌<◌, ◌≤◌, true, ◌≡◌, length};
ghost use Rattle.files.specs.Within.{mark, path as path_most};

use crate::asked::{make, open, sync, text};
use crate::write;
use std::fs::{File, OpenFile};
use std::io::{ErrorKind, Write};
use std::rt::Files;
use std::{fs, io};

// What a new file's name has behind the name that it is to take: `.new-` and three digits.
const MARK: usize = 8;

// So many names, from `.new-000` on.
const NAMES: usize = 1000;

// The system's longest path, with the 0 that it has behind it.
const PATH_MAX: usize = 4096;

// Whether there is no such file yet, or one that may be written. A rename asks only for the folder, so that it would replace a file that is
// protected.
fn is_replaceable<F: Files>(files: &F, name: &str) -> bool {
    match fs::metadata(files, name) {
        Ok(there) => {
            if there.is_file() {
                return is_writable(files, name);
            }
            !there.permissions().readonly()
        }
        Err(error) => error.kind() == ErrorKind::NotFound,
    }
}

// Whether a file lets itself be opened for writing, which changes nothing of it. What is no file is not asked so, since a pipe would wait.
fn is_writable<F: Files>(files: &F, name: &str) -> bool {
    File::options().write(true).open(files, name).is_ok()
}

// The new file's name but for its digits; answers its length with them.
fn put_beside(name: &[u8], out: &mut [u8]) -> usize
    requires { length name.now + mark ≤ length out.old }
    ensures { result ≡ length name.now + mark }
{
    let end = name.len();
    out[..end].copy_from_slice(name);
    out[end..end + 5].copy_from_slice(b".new-");
    end + MARK
}

// The three digits at the end of a name.
fn put_number(path: &mut [u8], number: usize)
    requires { mark ≤ length path.old }
{
    let at = path.len() - 3;
    let mut digits = &mut path[at..];
    let _ = write!(digits, "{number:03}");
}

// Makes the new file under the first of its names that no file has, so that none is written to or taken away that another run made.
fn create<F: Files>(files: &F, path: &mut [u8]) -> io::Result<F::File>
    requires { mark ≤ length path.old }
{
    for number in 0..NAMES {
        put_number(path, number);
        match make(files, path) {
            Ok(made) => return Ok(made),
            Err(error) => {
                if error.kind() != ErrorKind::AlreadyExists {
                    return Err(error);
                }
            }
        }
    }
    Err(io::Error::from(ErrorKind::AlreadyExists))
}

// Writes the new file, and answers whether all of it is on the device.
fn fill<F: Write + OpenFile + Drop>(mut file: F, bytes: &[u8]) -> bool {
    let written = transfer::is_all(write(&mut file, bytes));
    written && sync(&file).is_ok()
}

// A new name lasts when its folder has reached the device too. Where that cannot be had, the file stands there whole all the same.
fn sync_folder<F: Files>(files: &F) {
    if let Ok(folder) = open(files, b".") {
        let _ = sync(&folder);
    }
}

fn rename<F: Files>(files: &F, from: &[u8], to: &str) -> io::Result<()> {
    fs::rename(files, text(from)?, to)
}

fn remove<F: Files>(files: &F, name: &[u8]) -> io::Result<()> {
    fs::remove_file(files, text(name)?)
}

// Saves the bytes under a name by way of a new file, whose name is given up to its digits; a failure takes that file away again.
fn save_by<F: Files>(files: &F, new: &mut [u8], name: &str, bytes: &[u8]) -> bool
    requires { mark ≤ length new.old }
{
    match create(files, new) {
        Ok(made) => {
            if fill(made, bytes) && rename(files, new, name).is_ok() {
                sync_folder(files);
                return true;
            }
            let _ = remove(files, new);
            false
        }
        Err(_) => false,
    }
}

// Saves the bytes under a name of the current folder; whether that could be done is the answer. A link of that name is replaced, and the
// file that it leads to is not touched.
pub fn save<F: Files>(files: &F, name: &[u8], bytes: &[u8]) -> bool
    ensures { result ≡ true → length name.now + mark < path_most }
{
    let mut path = [0u8; PATH_MAX];
    if name.len() >= PATH_MAX - MARK {
        return false;
    }
    let Ok(known) = text(name) else {
        return false;
    };
    if !is_replaceable(files, known) {
        return false;
    }
    let end = put_beside(name, &mut path);
    save_by(files, &mut path[0..end], known, bytes)
}
