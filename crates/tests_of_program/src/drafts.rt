//! Files that are written beside their place, and put there when they are whole.

use crate::shared::to_text;
use pg_files::{FileFault, begin, begin_apart, begin_here, lead_to_one, make_folder, stand_at_one};
use std::io::Write;
use std::os::unix::fs::{PermissionsExt, symlink};
use std::process::Abort;
use std::rt::Runtime;
use std::{env, fs, process};

// The path of a file in a folder.
fn path_in<R: Runtime + Abort + AllocGlobal>(rt: &R, folder: &str, name: &str) -> String {
    let Ok(path) = format!(in rt.alloc(); "{folder}/{name}") else {
        panic!(rt; "memory");
    };
    path
}

// A new folder for the files of one test, whose process has this number.
fn folder<R: Runtime + Abort + AllocGlobal>(rt: &R, id: u32, name: &str) -> String {
    let Ok(temporary) = env::temp_dir(rt) else {
        panic!(rt; "a temporary folder");
    };
    let Ok(path) = format!(in rt.alloc(); "{}/pg-{name}-{id}", temporary.as_str()) else {
        panic!(rt; "memory");
    };
    assert!(rt; fs::create_dir(rt, path.as_str()).is_ok());
    path
}

fn remove<R: Runtime + Abort + AllocGlobal>(rt: &R, folder: &str) {
    assert!(rt; fs::remove_dir_all(rt, folder).is_ok());
}

// How many files a folder has.
fn count_files<R: Runtime + Abort + AllocGlobal>(rt: &R, folder: &str) -> usize {
    let Ok(entries) = fs::read_dir(rt, folder) else {
        panic!(rt; "{folder}");
    };
    let mut count = 0usize;
    for entry in entries {
        assert!(rt; entry.is_ok());
        count = count.saturating_add(1);
    }
    count
}

fn check_count<R: Runtime + Abort + AllocGlobal>(rt: &R, folder: &str, wanted: usize) {
    assert_eq!(rt; count_files(rt, folder), wanted);
}

fn write<R: Runtime + Abort + AllocGlobal>(rt: &R, path: &str, bytes: &[u8]) {
    assert!(rt; fs::write(rt, path, bytes).is_ok());
}

fn read<R: Runtime + Abort + AllocGlobal>(rt: &R, path: &str) -> Vec<u8> {
    let Ok(bytes) = fs::read(rt, path) else {
        panic!(rt; "{path}");
    };
    bytes
}

// That a file has these bytes.
fn check_file<R: Runtime + Abort + AllocGlobal>(rt: &R, path: &str, wanted: &[u8]) {
    assert_eq!(rt; read(rt, path).as_slice(), wanted);
}

fn link<R: Runtime + Abort + AllocGlobal>(rt: &R, target: &str, path: &str) {
    assert!(rt; symlink(rt, target, path).is_ok());
}

fn set_mode<R: Runtime + Abort + AllocGlobal>(rt: &R, path: &str, mode: u32) {
    assert!(rt; fs::set_permissions(rt, path, fs::Permissions::from_mode(mode)).is_ok());
}

fn check_mode<R: Runtime + Abort + AllocGlobal>(rt: &R, path: &str, wanted: u32) {
    let Ok(data) = fs::metadata(rt, path) else {
        panic!(rt; "{path}");
    };
    assert_eq!(rt; data.permissions().mode() % 512, wanted);
}

// A new draft is put in its place or dropped; before that an old file stands beside it in the folder.
fn check_draft<R: Runtime + Abort + AllocGlobal>(rt: &R, folder: &str, path: &str, put: bool) {
    let Ok(mut draft) = begin(rt, path) else {
        panic!(rt; "a draft");
    };
    assert!(rt; draft.file.write_all(b"new").is_ok());
    check_file(rt, path, b"old");
    check_count(rt, folder, 2);
    if put {
        assert!(rt; draft.put(rt).is_ok());
    } else {
        draft.discard(rt);
    }
    check_file(rt, path, if put { b"new" } else { b"old" });
    check_count(rt, folder, 1);
}

#[test]
fn a_draft_is_put_in_its_place_or_dropped(rt: HostRuntime) {
    let folder = folder(&rt, process::id(rt.process()), "draft");
    let path = path_in(&rt, folder.as_str(), "certificate");
    write(&rt, path.as_str(), b"old");
    set_mode(&rt, path.as_str(), 0o640);
    check_draft(&rt, folder.as_str(), path.as_str(), false);
    check_draft(&rt, folder.as_str(), path.as_str(), true);
    check_mode(&rt, path.as_str(), 0o640);
    remove(&rt, folder.as_str());
}

// That no draft is begun under a name.
fn check_not_opened<R: Runtime + Abort + AllocGlobal>(rt: &R, name: &str) {
    let refused = begin(rt, name);
    assert!(rt; matches!(&refused, Err(FileFault::Open(_))), "{name}");
}

// Names that lead to no plain file that may be written: none of them is touched.
#[test]
fn files_that_are_not_written(rt: HostRuntime) {
    let folder = folder(&rt, process::id(rt.process()), "unwritten");
    let dead = path_in(&rt, folder.as_str(), "link");
    link(&rt, "nothing", dead.as_str());
    let below = path_in(&rt, folder.as_str(), "none/certificate");
    let inner = path_in(&rt, folder.as_str(), "none/");
    let before = count_files(&rt, folder.as_str());
    for name in [
        folder.as_str(),
        dead.as_str(),
        below.as_str(),
        inner.as_str(),
        "/dev/null",
        "/dev/full",
        "-",
        "",
    ] {
        check_not_opened(&rt, name);
        check_count(&rt, folder.as_str(), before);
    }
    remove(&rt, folder.as_str());
}

// That a draft under the name of a link is put where the link leads, and the link stays.
fn check_link<R: Runtime + Abort + AllocGlobal>(rt: &R, file: &str, link: &str) {
    let Ok(mut draft) = begin(rt, link) else {
        panic!(rt; "a draft");
    };
    assert!(rt; draft.file.write_all(b"new").is_ok());
    assert!(rt; draft.put(rt).is_ok());
    let Ok(data) = fs::symlink_metadata(rt, link) else {
        panic!(rt; "{link}");
    };
    assert!(rt; data.is_symlink());
    check_file(rt, file, b"new");
}

// A link is written through: what it leads to is replaced, and the link stays.
#[test]
fn links_stay(rt: HostRuntime) {
    let folder = folder(&rt, process::id(rt.process()), "links");
    let file = path_in(&rt, folder.as_str(), "file");
    let name = path_in(&rt, folder.as_str(), "link");
    write(&rt, file.as_str(), b"old");
    link(&rt, "file", name.as_str());
    assert!(rt; lead_to_one(&rt, file.as_str(), name.as_str()));
    assert!(rt; !lead_to_one(&rt, file.as_str(), "/dev/null"));
    assert!(rt; !lead_to_one(&rt, "/dev/null", "/dev/null"));
    check_link(&rt, file.as_str(), name.as_str());
    remove(&rt, folder.as_str());
}

// That a draft of the first name that is put leaves the second name free.
fn check_apart<R: Runtime + Abort + AllocGlobal>(rt: &R, name: &str, other: &str) {
    let Ok(mut draft) = begin_apart(rt, name, other) else {
        panic!(rt; "a draft");
    };
    assert!(rt; draft.file.write_all(b"new").is_ok());
    assert!(rt; fs::symlink_metadata(rt, other).is_err());
    assert!(rt; draft.put(rt).is_ok());
    check_file(rt, name, b"new");
    assert!(rt; !stand_at_one(rt, name, other));
}

// A draft does not take the name of another file that is to be written, however its folder is named.
#[test]
fn drafts_stand_apart(rt: HostRuntime) {
    let folder = folder(&rt, process::id(rt.process()), "apart");
    let inner = path_in(&rt, folder.as_str(), "inner");
    link(&rt, ".", inner.as_str());
    let path = path_in(&rt, folder.as_str(), "list");
    let other = path_in(&rt, folder.as_str(), ".list.pg-part-0");
    check_apart(&rt, path.as_str(), other.as_str());
    let other = path_in(&rt, inner.as_str(), ".list.pg-part-0");
    check_apart(&rt, path.as_str(), other.as_str());
    check_count(&rt, folder.as_str(), 2);
    remove(&rt, folder.as_str());
}

// That no draft is begun at a path, and what is said of that.
fn check_not_begun_here<R: Runtime + Abort + AllocGlobal>(rt: &R, path: &str, wanted: &str) {
    let Err(FileFault::Open(obstacle)) = begin_here(rt, path) else {
        panic!(rt; "{path}");
    };
    assert_eq!(rt; to_text(rt, obstacle).as_str(), wanted);
}

// That a draft is begun at a path, and put there.
fn check_begun_here<R: Runtime + Abort + AllocGlobal>(rt: &R, path: &str) {
    let Ok(mut draft) = begin_here(rt, path) else {
        panic!(rt; "a draft");
    };
    assert!(rt; draft.file.write_all(b"new").is_ok());
    assert!(rt; draft.put(rt).is_ok());
    check_file(rt, path, b"new");
}

const LINK: &str = "it is a link, which is not followed";

// A link that stands at the path is not followed, wherever it leads; one in the name of the folder is.
#[test]
fn drafts_at_their_very_path(rt: HostRuntime) {
    let folder = folder(&rt, process::id(rt.process()), "here");
    let inner = path_in(&rt, folder.as_str(), "inner");
    link(&rt, ".", inner.as_str());
    let name = path_in(&rt, folder.as_str(), "link");
    link(&rt, "file", name.as_str());
    check_not_begun_here(&rt, name.as_str(), LINK);
    check_not_begun_here(&rt, inner.as_str(), LINK);
    check_not_begun_here(&rt, folder.as_str(), "it is no plain file");
    let file = path_in(&rt, inner.as_str(), "file");
    check_begun_here(&rt, file.as_str());
    write(&rt, file.as_str(), b"old");
    check_not_begun_here(&rt, name.as_str(), LINK);
    check_file(&rt, name.as_str(), b"old");
    check_begun_here(&rt, file.as_str());
    check_count(&rt, folder.as_str(), 3);
    remove(&rt, folder.as_str());
}

// That no folder is made, and what is said of that.
fn check_not_made<R: Runtime + Abort + AllocGlobal>(rt: &R, path: &str, wanted: &str) {
    let Err(FileFault::Open(obstacle)) = make_folder(rt, path) else {
        panic!(rt; "{path}");
    };
    assert_eq!(rt; to_text(rt, obstacle).as_str(), wanted);
}

// That a folder is there, with `wanted` names in it.
fn check_made<R: Runtime + Abort + AllocGlobal>(rt: &R, path: &str, wanted: usize) {
    assert!(rt; make_folder(rt, path).is_ok(), "{path}");
    check_count(rt, path, wanted);
}

// A folder is made with those above it; where one is already nothing is done.
#[test]
fn folders_that_are_made(rt: HostRuntime) {
    let folder = folder(&rt, process::id(rt.process()), "folders");
    let below = path_in(&rt, folder.as_str(), "one/two/three");
    check_made(&rt, below.as_str(), 0);
    let name = path_in(&rt, folder.as_str(), "link");
    link(&rt, "one", name.as_str());
    check_made(&rt, name.as_str(), 1);
    let dead = path_in(&rt, below.as_str(), "dead");
    link(&rt, "nothing", dead.as_str());
    check_not_made(&rt, dead.as_str(), "it is no folder");
    let file = path_in(&rt, below.as_str(), "file");
    write(&rt, file.as_str(), b"old");
    check_not_made(&rt, file.as_str(), "it is no folder");
    check_made(&rt, below.as_str(), 2);
    let inner = path_in(&rt, file.as_str(), "inner");
    check_not_made(&rt, inner.as_str(), "Not a directory (os error 20)");
    check_not_made(&rt, "", "it is no name of a file");
    remove(&rt, folder.as_str());
}
