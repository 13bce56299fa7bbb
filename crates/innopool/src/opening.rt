//! How the program opens its two files: what they may be, and that no other run has them.
//!
//! Where a standard stream is closed an opened file gets its descriptor. So a file is used through a copy, which has a descriptor of its
//! own, and nothing that is meant for the stream goes to the file.
use std::fs::{File, Metadata, OpenOptions};
use std::io::{self, ErrorKind};
use std::os::unix::fs::{FileTypeExt, MetadataExt};
use std::path::Path;

/// What tells a file from all others, whatever its names: the device that it is on, and its number there.
#[derive(Clone, Copy, Debug, PartialEq, Eq)]
pub struct FileKey {
    device: u64,
    number: u64,
}

fn key_of(about: &Metadata) -> FileKey {
    FileKey {
        device: about.dev(),
        number: about.ino(),
    }
}

/// Refuses a file that isn't of the kind that it should be.
fn refused<T>() -> io::Result<T> {
    Err(io::Error::from(ErrorKind::InvalidInput))
}

/// Opens a tablespace for reading and writing, and tells which file it is. It has to be a file or a block device, and no other run may have it.
pub fn open_tablespace(rt: &HostRuntime, name: &str) -> io::Result<(File, FileKey)> {
    let opened = OpenOptions::new().read(true).write(true).open(rt, name)?;
    let about = opened.metadata()?;
    let kind = about.file_type();
    if !kind.is_file() && !kind.is_block_device() {
        return refused();
    }
    opened.try_lock()?;
    Ok((opened.try_clone()?, key_of(&about)))
}

/// Makes the entry of a file as durable as the file.
fn sync_folder(rt: &HostRuntime, name: &str) -> io::Result<()> {
    let folder = match Path::new(name).parent() {
        Some(parent) if !parent.as_os_str().is_empty() => parent,
        _ => Path::new("."),
    };
    File::open(rt, folder)?.sync_all()
}

/// Opens the log for writing, and makes it where there is none. A link to nothing is refused.
fn open_or_make(rt: &HostRuntime, name: &str) -> io::Result<File> {
    let mut options = OpenOptions::new();
    options.write(true);
    match options.create_new(true).open(rt, name) {
        Err(error) if error.kind() == ErrorKind::AlreadyExists => {
            options.create_new(false).open(rt, name)
        }
        opened => opened,
    }
}

/// Opens a log for writing, and makes it where there is none. What it holds stays. Where it holds nothing its folder is synced: it may just
/// have been made, by this run or by one that came no further.
///
/// It may be no block device, whose length isn't that of a log, nor the run's tablespace; and no other run may have it.
pub fn open_log(rt: &HostRuntime, name: &str, tablespace: Option<FileKey>) -> io::Result<File> {
    let opened = open_or_make(rt, name)?;
    let about = opened.metadata()?;
    let kind = about.file_type();
    if kind.is_block_device() || tablespace == Some(key_of(&about)) {
        return refused();
    }
    if kind.is_file() {
        opened.try_lock()?;
        if about.len() == 0 {
            sync_folder(rt, name)?;
        }
    }
    opened.try_clone()
}
