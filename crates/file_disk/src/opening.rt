//! Files by their paths, opened as disks.
ghost use Rattle.std.specs.Prelude.{◌≡◌, true, false};
ghost use Rattle.std.specs.Fs.{asks_read, asks_write, asks_append, asks_truncate, asks_create, asks_create_new};

use crate::FileDisk;
use std::fs::{Files, OpenFile, OpenOptions};
use std::os::unix::fs::FileExt;

impl<F: FileExt + OpenFile + Drop> FileDisk<F> {
    /// The disk of the file at `path`, which is never made. If it can't be opened for reading and writing, the disk is
    /// without a file.
    pub fn open_existing<R: Files<File = F>>(files: &R, path: &str) -> FileDisk<F>
        ensures faults { result.faults ≡ 0 }
    {
        open_by(&options(false), files, path)
    }

    /// The disk of the file at `path`, which is made empty if there is none. A file that is there keeps its bytes. If
    /// it can't be opened for reading and writing, the disk is without a file.
    ///
    /// No sync of the disk is one of the file's directory, so a crash may take away a file that was just made.
    pub fn open_or_make<R: Files<File = F>>(files: &R, path: &str) -> FileDisk<F>
        ensures faults { result.faults ≡ 0 }
    {
        open_by(&options(true), files, path)
    }
}

/// The disk of the file at `path`, opened by these options.
fn open_by<F: FileExt + OpenFile + Drop, R: Files<File = F>>(
    options: &OpenOptions,
    files: &R,
    path: &str,
) -> FileDisk<F>
    ensures faults { result.faults ≡ 0 }
{
    match options.open(files, path) {
        Ok(file) => FileDisk::of_open(file),
        Err(_) => FileDisk::absent(),
    }
}

/// To read and to write a file that keeps its bytes, and to make it only if asked for.
fn options(makes_file: bool) -> OpenOptions
    ensures uses { (asks_read result ≡ true) × (asks_write result ≡ true) × (asks_append result ≡ false) }
    ensures keeps { asks_truncate result ≡ false }
    ensures makes { (asks_create result ≡ makes_file) × (asks_create_new result ≡ false) }
{
    let mut options = OpenOptions::new();
    options.read(true).write(true).create(makes_file);
    options
}
