//! Folders that files are put into.
ghost use Rattle.std.specs.Prelude.{◌≡◌, ◌⊎◌, [], IfErr, IsErrAnd};
ghost use Rattle.pg_files.specs.Faults.{IsNotMade};

use crate::faults::{FileFault, Obstacle};
use std::fs;
use std::io::ErrorKind;
use std::rt::Files;

// Makes a folder, and those above it that are not there.
fn make_all<R: Files>(rt: &R, path: &str) -> Result<(), FileFault>
    ensures fault { IfErr result IsNotMade }
{
    match fs::create_dir_all(rt, path) {
        Ok(()) => Ok(()),
        Err(fault) if fault.kind() == ErrorKind::AlreadyExists => {
            Err(FileFault::Open(Obstacle::NoFolder))
        }
        Err(fault) => Err(FileFault::Open(Obstacle::of(&fault))),
    }
}

/// The folder of this name is there from now on: it is made, with those above it, where nothing stands there, and
/// nothing is done where it is a folder already, also behind a link. Std says nothing of which folders there are, so no
/// clause says that it is there.
///
/// # Errors
/// `Open`: with `NoName` where the name is empty; with `NoFolder` where something else stands there, also a link that
/// leads to nothing; or as the system refuses it, which leaves those folders above it that it made.
pub fn make_folder<R: Files>(rt: &R, path: &str) -> Result<(), FileFault>
    ensures empty { path.now ≡ [] → IsErrAnd result (λ fault. fault ≡ FileFault.Open Obstacle.NoName) }
    ensures fault { IfErr result (λ fault. ((path.now ≡ []) × (fault ≡ FileFault.Open Obstacle.NoName))
        ⊎ IsNotMade fault) }
{
    if path.is_empty() {
        return Err(FileFault::Open(Obstacle::NoName));
    }
    match fs::metadata(rt, path) {
        Ok(found) if found.is_dir() => Ok(()),
        Ok(_) => Err(FileFault::Open(Obstacle::NoFolder)),
        Err(fault) if fault.kind() == ErrorKind::NotFound => make_all(rt, path),
        Err(fault) => Err(FileFault::Open(Obstacle::of(&fault))),
    }
}
