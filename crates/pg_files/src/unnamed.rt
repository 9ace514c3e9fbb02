//! A file that has no name.
ghost use Rattle.std.specs.Prelude.{IfErr};
ghost use Rattle.pg_files.specs.Faults.{IsNotBegun};

use crate::faults::{FileFault, Obstacle};
use std::fs::File;
use std::io::ErrorKind;
use std::rt::{Env, Files};
use std::{env, fs};

// The most names that are tried for it.
const NAMES: u32 = 1000;

/// A new file to be written and read again, in the folder for files that do not last (`TMPDIR`, or else `/tmp`). Its
/// name is taken away at once, so that it goes with the run, however that ends.
///
/// # Errors
/// `Open` where the folder takes no file, or where 1,000 files stand there whose names runs have left; `Memory` where a
/// growth is refused.
pub fn nameless<R: Files + Env + AllocGlobal>(rt: &R) -> Result<R::File, FileFault>
    ensures fault { IfErr result IsNotBegun }
{
    let Ok(folder) = env::temp_dir(rt) else {
        return Err(FileFault::Memory);
    };
    for number in 0..NAMES {
        let Ok(path) = format!(in rt.alloc(); "{}/.pg-part-{number}", folder.as_str()) else {
            return Err(FileFault::Memory);
        };
        match File::create_new(rt, path.as_str()) {
            Ok(file) => {
                return match fs::remove_file(rt, path.as_str()) {
                    Ok(()) => Ok(file),
                    Err(fault) => Err(FileFault::Open(Obstacle::of(&fault))),
                };
            }
            Err(fault) if fault.kind() == ErrorKind::AlreadyExists => {}
            Err(fault) => return Err(FileFault::Open(Obstacle::of(&fault))),
        }
    }
    Err(FileFault::Open(Obstacle::Drafts))
}
