//! Files that are written beside their place, and put there when they are whole. Of the files of the system std says
//! nothing, so no clause says which there are before a call and after it.
ghost use Rattle.std.specs.Prelude.{◌≡◌, ◌≢◌, ◌≤◌, ◌<◌, ◌++◌, codes, length, string_bytes};
ghost use Rattle.std.specs.Prelude.{IfErr, IfOk, IfSome, IsErrAnd, IsNone, IsSome};
ghost use Rattle.std.specs.Fs.{permissions_mode};
ghost use Rattle.std.specs.Io.{StartsWith};
ghost use Rattle.pg_files.specs.Drafts.{HasPlainRights, IsNew, name_of_draft, place_of_draft};
ghost use Rattle.pg_files.specs.Paths.{HasNoSlash, IsDraftPath, IsFolder};
ghost use Rattle.pg_files.specs.Faults.{IsNotBegun, IsNotBegunHere, IsNotPut, IsOfOpening};

use crate::faults::{FileFault, Obstacle};
use crate::names::{is_input, path_of};
use std::alloc::Global;
use std::fs::{File, Metadata, OpenFile, Permissions};
use std::io::ErrorKind;
use std::os::unix::fs::{MetadataExt, PermissionsExt};
use std::rt::Files;
use std::{fs, io};

// The most names that are tried for a file beside its place.
const NAMES: u32 = 1000;

// The most bytes that a draft has of its file's name, so that its own name, which is a dot, those bytes and
// `.pg-part-999`, has 255, the most that Linux takes.
const MOST_OF_NAME: usize = 242;

// The bits of a mode that are handed on: who may read, write and run the file, and no setuid, setgid or sticky bit.
const RIGHTS: u32 = 0o777;

// Whether two files are one.
fn is_same(one: &Metadata, other: &Metadata) -> bool {
    one.dev() == other.dev() && one.ino() == other.ino()
}

/// Whether two names lead to one plain file. The name `-` leads to standard input. No clause can say so: std says
/// nothing of what a name leads to.
pub fn lead_to_one<R: Files>(rt: &R, one: &str, other: &str) -> bool {
    match (
        fs::metadata(rt, path_of(one)),
        fs::metadata(rt, path_of(other)),
    ) {
        (Ok(one), Ok(other)) => one.is_file() && is_same(&one, &other),
        _ => false,
    }
}

// Whether what is printed goes to this file.
fn is_printed_to<R: Files>(rt: &R, file: &Metadata) -> bool {
    for stream in ["/dev/stdout", "/dev/stderr"] {
        if let Ok(printed) = fs::metadata(rt, stream) {
            if is_same(file, &printed) {
                return true;
            }
        }
    }
    false
}

// Where a file is to stand.
#[derive(Drop)]
struct Place {
    path: String,
    /// Those of the file that stands there, if one does, without its setuid, setgid and sticky bits.
    permissions: Option<Permissions>,
}

// A text of one's own.
fn copied(alloc: Global, text: &str) -> Result<String, FileFault>
    ensures copy { IfOk result (λ copy. string_bytes copy ≡ text.now) }
    ensures fault { IfErr result (λ fault. fault ≡ FileFault.Memory) }
{
    match String::from_str(alloc, text) {
        Ok(copy) => Ok(copy),
        Err(_) => Err(FileFault::Memory),
    }
}

// Who may read, write and run a file.
fn rights_of(file: &Metadata) -> Permissions
    ensures { permissions_mode result ≤ 0o777 }
{
    Permissions::from_mode(file.permissions().mode() & RIGHTS)
}

// What is done with a symbolic link that stands where a file is to be written.
#[derive(Clone, Copy, PartialEq, Eq)]
enum Links {
    Followed,
    Refused,
}

// What stands under a name: what a link there leads to, where it is followed, else the link itself.
fn look_at<R: Files>(rt: &R, name: &str, links: Links) -> io::Result<Metadata> {
    match links {
        Links::Followed => fs::metadata(rt, name),
        Links::Refused => fs::symlink_metadata(rt, name),
    }
}

// Whether what stands there may be written in place of the file, or what is in the way: only a plain file may, where
// the program does not print.
fn may_be_replaced<R: Files>(rt: &R, name: &str, old: &Metadata) -> Result<(), FileFault>
    ensures fault { IfErr result IsNotBegun }
{
    if !old.is_file() {
        return Err(FileFault::Open(Obstacle::NotPlain));
    }
    if is_printed_to(rt, old) {
        return Err(FileFault::Open(Obstacle::PrintedTo));
    }
    match File::options().write(true).open(rt, name) {
        Ok(_) => Ok(()),
        Err(fault) => Err(FileFault::Open(Obstacle::of(&fault))),
    }
}

// The path under which a file that is there already is replaced: where links are followed, that of the file to which
// the name leads; else the name, so that what is put there replaces even a link that somebody makes meanwhile.
fn path_of_old<R: Files + AllocGlobal>(
    rt: &R,
    name: &str,
    links: Links,
) -> Result<String, FileFault>
    ensures here { links ≡ Links.Refused → IfOk result (λ path. string_bytes path ≡ name.now) }
    ensures fault { IfErr result IsNotBegun }
{
    if links == Links::Refused {
        return copied(rt.alloc(), name);
    }
    match fs::canonicalize(rt, name) {
        Ok(path) => copied(rt.alloc(), path.as_str()),
        Err(fault) if fault.kind() == ErrorKind::OutOfMemory => Err(FileFault::Memory),
        Err(fault) => Err(FileFault::Open(Obstacle::of(&fault))),
    }
}

// The place of a file that is there already: the plain file to which the name leads, if it may be
// written and is not where the program prints.
fn place_of_old<R: Files + AllocGlobal>(
    rt: &R,
    name: &str,
    links: Links,
) -> Result<Place, FileFault>
    ensures old { IfOk result (λ place. IfSome place.permissions (λ rights. permissions_mode rights ≤ 0o777)) }
    ensures there { IfOk result (λ place. IsSome place.permissions) }
    ensures here { links ≡ Links.Refused → IfOk result (λ place. string_bytes place.path ≡ name.now) }
    ensures followed { links ≡ Links.Followed → IfErr result IsNotBegun }
    ensures fault { IfErr result IsNotBegunHere }
{
    let old = match look_at(rt, name, links) {
        Ok(old) => old,
        Err(fault) => return Err(FileFault::Open(Obstacle::of(&fault))),
    };
    if links == Links::Refused && old.is_symlink() {
        return Err(FileFault::Open(Obstacle::Link));
    }
    may_be_replaced(rt, name, &old)?;
    Ok(Place {
        path: path_of_old(rt, name, links)?,
        permissions: Some(rights_of(&old)),
    })
}

// The place of a file with this name.
fn place_of<R: Files + AllocGlobal>(rt: &R, name: &str, links: Links) -> Result<Place, FileFault>
    ensures new { IfOk result (λ place. IsNone place.permissions → string_bytes place.path ≡ name.now) }
    ensures rights { IfOk result (λ place. IfSome place.permissions (λ rights. permissions_mode rights ≤ 0o777)) }
    ensures input { name.now ≡ codes "-" → IsErrAnd result (λ fault. fault ≡ FileFault.Open Obstacle.Input) }
    ensures here { links ≡ Links.Refused → IfOk result (λ place. string_bytes place.path ≡ name.now) }
    ensures followed { links ≡ Links.Followed → IfErr result IsNotBegun }
    ensures fault { IfErr result IsNotBegunHere }
{
    if is_input(name) {
        return Err(FileFault::Open(Obstacle::Input));
    }
    match fs::symlink_metadata(rt, name) {
        Ok(_) => place_of_old(rt, name, links),
        Err(fault) if fault.kind() == ErrorKind::NotFound => {
            if name.is_empty() || name.ends_with('/') {
                return Err(FileFault::Open(Obstacle::NoName));
            }
            Ok(Place {
                path: copied(rt.alloc(), name)?,
                permissions: None,
            })
        }
        Err(fault) => Err(FileFault::Open(Obstacle::of(&fault))),
    }
}

// The folder of a path, with its last `/`, and the name behind that. Where the path has no `/`, the folder is nothing.
fn parted(path: &str) -> (&str, &str)
    ensures whole { path.now ≡ result.0.now ++ result.1.now }
    ensures folder { IsFolder result.0.now }
    ensures name { HasNoSlash result.1.now }
{
    match path.rfind('/') {
        Some(at) => path.split_at(at + 1),
        None => ("", path),
    }
}

// The folder of a path, as a name that can be asked about.
fn folder_name(path: &str) -> &str {
    match parted(path).0 {
        "" => ".",
        folder => folder,
    }
}

/// Whether two names stand at one place, so that files written under both would be one: they lead to one plain file,
/// or they are one name in one folder. No clause can say so, since none says what a name leads to.
pub fn stand_at_one<R: Files>(rt: &R, one: &str, other: &str) -> bool {
    if lead_to_one(rt, one, other) {
        return true;
    }
    if parted(one).1 != parted(other).1 {
        return false;
    }
    match (
        fs::metadata(rt, folder_name(one)),
        fs::metadata(rt, folder_name(other)),
    ) {
        (Ok(one), Ok(other)) => is_same(&one, &other),
        _ => false,
    }
}

// The front of a name that a draft's has room for, which cuts no character.
fn front_of(name: &str) -> &str
    ensures front { StartsWith name.now result.now }
    ensures short { length result.now ≤ 242 }
    ensures whole { length name.now ≤ 242 → result.now ≡ name.now }
{
    &name[..name.floor_char_boundary(MOST_OF_NAME)]
}

// The path of the draft of this number, for a file of this path.
fn draft_path(alloc: Global, path: &str, number: u32) -> Result<String, FileFault>
    requires { number < 1000 }
    ensures name { IfOk result (λ draft. IsDraftPath path.now (string_bytes draft)) }
    ensures fault { IfErr result (λ fault. fault ≡ FileFault.Memory) }
{
    let (folder, name) = parted(path);
    let front = front_of(name);
    match format!(in alloc; "{folder}.{front}.pg-part-{number}") {
        Ok(draft) => Ok(draft),
        Err(_) => Err(FileFault::Memory),
    }
}

/// A file that is written beside its place, in the same folder, as `.NAME.pg-part-N`: N is the least number below
/// 1,000 that is free, and NAME the name of the file that is to stand there, or the front of it, 242 bytes at most.
/// It is to be put there or dropped. A run that is killed leaves it.
#[derive(Drop)]
pub struct Draft<F> {
    pub file: F,
    place: Place,
    /// Where the file is now.
    path: String,
}

// Makes a new file in the folder of a place, which does not stand where a file of the other name would.
fn make_beside<R: Files + AllocGlobal>(
    rt: &R,
    place: Place,
    other: &str,
) -> Result<Draft<R::File>, FileFault>
    ensures apart { IfOk result (λ draft. name_of_draft draft ≢ other.now) }
    ensures name { IfOk result (λ draft. IsDraftPath (place_of_draft draft) (name_of_draft draft)) }
    ensures place { IfOk result (λ draft. draft.place ≡ place) }
    ensures fault { IfErr result IsNotBegun }
{
    for number in 0..NAMES {
        let path = draft_path(rt.alloc(), place.path.as_str(), number)?;
        if path.as_str() == other || stand_at_one(rt, path.as_str(), other) {
            continue;
        }
        match File::create_new(rt, path.as_str()) {
            Ok(file) => {
                return Ok(Draft { file, place, path });
            }
            Err(fault) if fault.kind() == ErrorKind::AlreadyExists => {}
            Err(fault) => return Err(FileFault::Open(Obstacle::of(&fault))),
        }
    }
    Err(FileFault::Open(Obstacle::Drafts))
}

/// Begins a file of this name, beside the place where it is to stand. Nothing that is there is touched.
///
/// # Errors
/// `Open` where the name leads to a folder, a pipe, a device or to nothing, where the program prints to
/// that file, where it must not be written, where its folder takes no file, or where 1,000 drafts of it stand
/// there, which runs have left; `Memory` where a growth is refused.
pub fn begin<R: Files + AllocGlobal>(rt: &R, name: &str) -> Result<Draft<R::File>, FileFault>
    ensures name { IfOk result (λ draft. IsDraftPath (place_of_draft draft) (name_of_draft draft)) }
    ensures new { IfOk result (λ draft. IsNew draft → place_of_draft draft ≡ name.now) }
    ensures rights { IfOk result HasPlainRights }
    ensures input { name.now ≡ codes "-" → IsErrAnd result (λ fault. fault ≡ FileFault.Open Obstacle.Input) }
    ensures fault { IfErr result IsNotBegun }
{
    begin_apart(rt, name, "")
}

/// Begins a file of this name likewise, but not where a file of the other name stands or would be put: the next number
/// is taken then.
///
/// # Errors
/// Those of `begin`.
pub fn begin_apart<R: Files + AllocGlobal>(
    rt: &R,
    name: &str,
    other: &str,
) -> Result<Draft<R::File>, FileFault>
    ensures apart { IfOk result (λ draft. name_of_draft draft ≢ other.now) }
    ensures name { IfOk result (λ draft. IsDraftPath (place_of_draft draft) (name_of_draft draft)) }
    ensures new { IfOk result (λ draft. IsNew draft → place_of_draft draft ≡ name.now) }
    ensures rights { IfOk result HasPlainRights }
    ensures input { name.now ≡ codes "-" → IsErrAnd result (λ fault. fault ≡ FileFault.Open Obstacle.Input) }
    ensures fault { IfErr result IsNotBegun }
{
    let place = place_of(rt, name, Links::Followed)?;
    make_beside(rt, place, other)
}

/// Begins a file of this name likewise, at the very path: a symbolic link that stands there, also one that leads to
/// nothing, is refused and never followed. So what is put there is under this name, and no file elsewhere is written.
/// Links above it, in the name of its folder, are followed.
///
/// # Errors
/// Those of `begin`, and `Open` with `Link`.
pub fn begin_here<R: Files + AllocGlobal>(rt: &R, path: &str) -> Result<Draft<R::File>, FileFault>
    ensures here { IfOk result (λ draft. place_of_draft draft ≡ path.now) }
    ensures name { IfOk result (λ draft. IsDraftPath path.now (name_of_draft draft)) }
    ensures rights { IfOk result HasPlainRights }
    ensures input { path.now ≡ codes "-" → IsErrAnd result (λ fault. fault ≡ FileFault.Open Obstacle.Input) }
    ensures fault { IfErr result IsNotBegunHere }
{
    let place = place_of(rt, path, Links::Refused)?;
    make_beside(rt, place, "")
}

impl<F: OpenFile + Drop> Draft<F> {
    /// Another handle of the file: what is written to the one is read from the other, and both are at one place in it.
    ///
    /// # Errors
    /// `Open` with what the system says.
    pub fn handle(&self) -> Result<F, FileFault>
        ensures { IfErr result IsOfOpening }
    {
        match self.file.try_clone() {
            Ok(file) => Ok(file),
            Err(fault) => Err(FileFault::Open(Obstacle::of(&fault))),
        }
    }

    /// Puts the file in its place. Who may read, write and run it is as it was of the one that stood there; its
    /// owner is who runs the program, and it has no setuid, setgid or sticky bit.
    ///
    /// # Errors
    /// `Write` where the system does not have the whole file, `Open` where it cannot be put there. The
    /// file is gone then, and its place is as it was.
    pub fn put<R: Files>(self, rt: &R) -> Result<(), FileFault>
        ensures { IfErr result IsNotPut }
    {
        let Draft { file, place, path } = self;
        if let Some(permissions) = place.permissions {
            let _ = file.set_permissions(permissions);
        }
        if file.sync_all().is_err() {
            let _ = fs::remove_file(rt, path.as_str());
            return Err(FileFault::Write);
        }
        if let Err(fault) = fs::rename(rt, path.as_str(), place.path.as_str()) {
            let _ = fs::remove_file(rt, path.as_str());
            return Err(FileFault::Open(Obstacle::of(&fault)));
        }
        Ok(())
    }

    /// Takes the file away. Its place is as it was. No clause can say so: std says nothing of which files there are.
    pub fn discard<R: Files>(self, rt: &R) {
        let _ = fs::remove_file(rt, self.path.as_str());
    }
}
