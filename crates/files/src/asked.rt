// What is asked of the system once, and asked again where a signal interrupted it: files opened and made, and brought to their device.
// The library takes names that are text; a name of other bytes is told as one that no call takes.
ghost use Rattle.std.specs.Prelude.{◌≡◌};

use std::fs::{File, OpenFile};
use std::io::ErrorKind;
use std::rt::Files;
use std::{io, str};
use transfer::INTERRUPTIONS;

// A name as the library takes it.
pub(crate) fn text(name: &[u8]) -> io::Result<&str> {
    str::from_utf8(name).map_err(|_| io::Error::from(ErrorKind::InvalidInput))
}

fn was_interrupted<T>(answer: &io::Result<T>) -> bool {
    match answer {
        Ok(_) => false,
        Err(error) => error.kind() == ErrorKind::Interrupted,
    }
}

pub(crate) fn patiently<T: Drop, A: Fn() -> io::Result<T>>(ask: A) -> io::Result<T>
    requires { A.IsAlwaysCallable ask }
{
    let mut answer = ask();
    for _ in 0..INTERRUPTIONS {
        if !was_interrupted(&answer) {
            return answer;
        }
        answer = ask();
    }
    answer
}

// Opens the file of a name for reading.
pub(crate) fn open<F: Files>(files: &F, name: &[u8]) -> io::Result<F::File> {
    let path = text(name)?;
    patiently(|| File::open(files, path))
}

// Makes the file of a name that no file has.
pub(crate) fn make<F: Files>(files: &F, name: &[u8]) -> io::Result<F::File> {
    let path = text(name)?;
    patiently(|| File::create_new(files, path))
}

// Brings a file to its device.
pub(crate) fn sync<F: OpenFile>(file: &F) -> io::Result<()> {
    patiently(|| file.sync_all())
}
