use super::*;
use std::cell::Cell;
use std::fs;
use std::fs::Metadata;
use std::test::Fail;

/// How many bytes a file in memory has room for.
const ROOM: usize = 8;

/// A file in memory. A read or a write moves two bytes at most, and each second one is interrupted, from the first on.
#[derive(Drop)]
struct MemFile {
    bytes: Cell<[u8; ROOM]>,
    len: Cell<usize>,
    is_interrupted: Cell<bool>,
    syncs: Cell<u8>,
    is_broken: bool,
}

impl MemFile {
    /// A file of six letters.
    fn new(is_broken: bool) -> MemFile {
        MemFile {
            bytes: Cell::new(*b"abcdef\0\0"),
            len: Cell::new(6),
            is_interrupted: Cell::new(false),
            syncs: Cell::new(0),
            is_broken,
        }
    }

    fn fail_if_broken(&self) -> io::Result<()> {
        if self.is_broken {
            return Err(io::Error::from(ErrorKind::Other));
        }
        Ok(())
    }

    fn interrupt(&self) -> io::Result<()> {
        self.fail_if_broken()?;
        self.is_interrupted.set(!self.is_interrupted.get());
        if self.is_interrupted.get() {
            return Err(io::Error::from(ErrorKind::Interrupted));
        }
        Ok(())
    }
}

impl FileExt for MemFile {
    fn read_at(&self, buf: &mut [u8], offset: u64) -> io::Result<usize> {
        self.interrupt()?;
        let len = self.len.get().min(ROOM);
        let at = offset.min(len as u64) as usize;
        let count = buf.len().min(2).min(len - at);
        buf[..count].copy_from_slice(&self.bytes.get()[at..at + count]);
        Ok(count)
    }

    fn write_at(&self, buf: &[u8], offset: u64) -> io::Result<usize> {
        self.interrupt()?;
        let at = offset.min(ROOM as u64) as usize;
        let count = buf.len().min(2).min(ROOM - at);
        let mut bytes = self.bytes.get();
        bytes[at..at + count].copy_from_slice(&buf[..count]);
        self.bytes.set(bytes);
        self.len.set(self.len.get().max(at + count));
        Ok(count)
    }
}

impl OpenFile for MemFile {
    fn metadata(&self) -> io::Result<Metadata> {
        self.fail_if_broken()?;
        Ok(Metadata::of_file(self.len.get() as u64))
    }

    fn set_len(&self, _size: u64) -> io::Result<()> {
        Err(io::Error::from(ErrorKind::Unsupported))
    }

    fn sync_all(&self) -> io::Result<()> {
        Err(io::Error::from(ErrorKind::Unsupported))
    }

    fn sync_data(&self) -> io::Result<()> {
        self.fail_if_broken()?;
        self.syncs.set(self.syncs.get().saturating_add(1));
        Ok(())
    }
}

#[test]
fn calls_reach_the_file_at_their_places(rt: HostRuntime) {
    let mut disk = FileDisk::of_open(MemFile::new(false));
    assert_eq!(rt; disk.size(), Ok(6));
    let mut into = [0u8; 3];
    assert_eq!(rt; disk.read(2, &mut into), Ok(()));
    assert_eq!(rt; into, *b"cde");
    assert_eq!(rt; disk.write_at(1, b"xyz"), Ok(()));
    assert_eq!(rt; disk.size(), Ok(6));
    assert_eq!(rt; disk.write_at(5, b"end"), Ok(()));
    assert_eq!(rt; disk.size(), Ok(8));
    assert_eq!(rt; disk.sync(), Ok(()));
    assert_eq!(rt; disk.faults(), 0);
    let Some(file) = &disk.file else {
        return assert!(rt; false);
    };
    assert_eq!(rt; file.bytes.get(), *b"axyzeend");
    assert_eq!(rt; file.syncs.get(), 1);
}

#[test]
fn a_call_that_the_file_refuses_is_counted(rt: HostRuntime) {
    let mut disk = FileDisk::of_open(MemFile::new(false));
    let mut into = [0u8; 3];
    assert_eq!(rt; disk.read(4, &mut into), Err(DiskError::Failed));
    assert_eq!(rt; disk.faults(), 1);
    assert_eq!(rt; disk.write_at(6, b"long"), Err(DiskError::Failed));
    assert_eq!(rt; disk.faults(), 2);
    assert_eq!(rt; disk.size(), Ok(6));
    let mut disk = FileDisk::new(MemFile::new(true), 6);
    assert_eq!(rt; disk.sync(), Err(DiskError::Failed));
    assert_eq!(rt; disk.read(0, &mut into), Err(DiskError::Failed));
    assert_eq!(rt; disk.faults(), 2);
}

#[test]
fn each_call_without_a_file_is_counted(rt: HostRuntime) {
    let mut disk = FileDisk::of_open(MemFile::new(true));
    let mut into = [0u8; 3];
    assert_eq!(rt; disk.size(), Err(DiskError::Failed));
    assert_eq!(rt; disk.read(0, &mut into), Err(DiskError::Failed));
    assert_eq!(rt; disk.write_at(0, b"abc"), Err(DiskError::Failed));
    assert_eq!(rt; disk.sync(), Err(DiskError::Failed));
    assert_eq!(rt; disk.faults(), 4);
}

#[test]
fn a_file_of_the_system_keeps_its_bytes(rt: HostRuntime) -> Result<(), Fail> {
    let path = "file_disk_test";
    let _ = fs::remove_file(&rt, path);
    let mut disk = FileDisk::open_existing(&rt, path);
    assert_eq!(rt; disk.size(), Err(DiskError::Failed));
    assert_eq!(rt; fs::exists(&rt, path)?, false);
    let mut disk = FileDisk::open_or_make(&rt, path);
    assert_eq!(rt; disk.size(), Ok(0));
    assert_eq!(rt; disk.write_at(2, b"abc"), Ok(()));
    assert_eq!(rt; disk.sync(), Ok(()));
    let mut disk = FileDisk::open_or_make(&rt, path);
    assert_eq!(rt; disk.size(), Ok(5));
    let mut disk = FileDisk::open_existing(&rt, path);
    let mut into = [0u8; 4];
    assert_eq!(rt; disk.read(1, &mut into), Ok(()));
    assert_eq!(rt; into, *b"\0abc");
    assert_eq!(rt; disk.faults(), 0);
    fs::remove_file(&rt, path)?;
    Ok(())
}
