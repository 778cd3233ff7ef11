//! Files of empty stores, made on disks in memory.
ghost use Rattle.std.specs.Prelude.{◌≡◌, ◌≤◌, IsTrue, IfOk};
ghost use Rattle.metrics_builtin.specs.Space.{IsValid};
ghost use Rattle.store_check.specs.Profile.{IsInRange};
ghost use Rattle.store_check.specs.Stands.{are_empty};

use metrics_builtin::Space;
use page_laws::Root;
use spb_edge::{Bytes, Choice, Disk, DiskCall, MemDisk, Memory, SureDisk};
use std::alloc::Global;
use std::test::Fail;
use store_check::{CurveKind, Profile, read_profile};
use store_format::{FormatError, format};

/// The profile of an empty store for so many strings of four bytes, over five pivots.
fn profile_of(cap: u32) -> Profile
    requires { (1 ≤ cap) × (cap ≤ 65536) }
    ensures range { IsInRange result }
    ensures roots { IsTrue (are_empty result.roots) }
    ensures space { result.space ≡ Space.Hamming 4 }
    ensures pivots { result.pivots ≡ 5 }
{
    Profile {
        space: Space::Hamming { len: 4 },
        curve: CurveKind::Z,
        pivots: 5,
        bits: 3,
        cap,
        roots: [Root { page: 0, height: 0 }; 8],
    }
}

/// A string of four bytes.
fn string(alloc: Global, first: u8) -> Result<Bytes, Memory>
    ensures { IfOk result (λ object. IsValid (Space.Hamming 4) object) }
{
    Bytes::of(alloc, &[first, 2, 3, 4])
}

/// Makes the file of an empty store for so many strings.
fn make<D: Disk>(alloc: Global, disk: &mut D, cap: u32) -> Result<Result<(), FormatError>, Memory>
    requires { (1 ≤ cap) × (cap ≤ 65536) }
{
    let pivots = [
        string(alloc, 10)?,
        string(alloc, 11)?,
        string(alloc, 12)?,
        string(alloc, 13)?,
        string(alloc, 14)?,
    ];
    Ok(format(alloc, disk, &profile_of(cap), &pivots))
}

/// An empty disk that stops after so many calls and whose call of this number fails.
fn disk_of(alloc: Global, failing: u64, stop: Option<u64>) -> Result<MemDisk, Memory> {
    MemDisk::new(alloc, &[], &[failing], stop, 16, 100_000)
}

/// Page n of a file, or no bytes.
fn page_of(file: &[u8], n: u8) -> &[u8] {
    let at = 512 * n as usize;
    file.get(at..at + 512).unwrap_or(&[])
}

#[test]
fn the_calls_come_in_this_order(rt: HostRuntime) -> Result<(), Fail> {
    let mut disk = disk_of(rt.alloc(), 0, None)?;
    make(rt.alloc(), &mut disk, 3)??;
    let sync = DiskCall::Sync;
    let first = DiskCall::Write { at: 0, len: 512 };
    let piece = DiskCall::Write {
        at: 512,
        len: 41_472,
    };
    let last = DiskCall::Write {
        at: 41_984,
        len: 22_528,
    };
    let magic = DiskCall::Write { at: 0, len: 8 };
    assert!(rt;
        disk.calls() == [DiskCall::Size, first, sync, piece, last, sync, magic, sync].as_slice()
    );
    Ok(())
}

#[test]
fn the_pages_of_a_file(rt: HostRuntime) -> Result<(), Fail> {
    let mut disk = disk_of(rt.alloc(), 0, None)?;
    make(rt.alloc(), &mut disk, 3)??;
    let file = disk.image();
    assert_eq!(rt; file.len(), 64_512);
    assert!(rt; file.starts_with(b"spbstore\0\0\0\0\0\0\0\0\0"));
    let mut page = [0; 512];
    if file.len() < 1024 {
        return Err(Fail::new("no profile page"));
    }
    page.copy_from_slice(&file[512..1024]);
    assert!(rt; read_profile(&page) == Ok(profile_of(3)));
    assert!(rt; page_of(file, 2).starts_with(&[0, 4, 0, 0, 0, 0, 0, 0, 10, 2, 3, 4, 0]));
    assert!(rt; page_of(file, 3).starts_with(&[0, 4, 0, 0, 0, 0, 0, 0, 14, 2, 3, 4, 0]));
    assert!(rt; page_of(file, 4) == [0; 512].as_slice());
    assert!(rt; page_of(file, 84) == [0; 512].as_slice());
    assert!(rt; page_of(file, 85).get(128) == Some(&255));
    assert!(rt; page_of(file, 86) == [0; 512].as_slice());
    assert!(rt; page_of(file, 125) == [0; 512].as_slice());
    Ok(())
}

#[test]
fn a_file_on_a_disk_that_never_fails(rt: HostRuntime) -> Result<(), Fail> {
    let mut disk = SureDisk::new(rt.alloc(), &[])?;
    make(rt.alloc(), &mut disk, 100)??;
    assert_eq!(rt; disk.size()?, 89_088);
    Ok(())
}

#[test]
fn a_disk_with_a_byte_is_not_empty(rt: HostRuntime) -> Result<(), Fail> {
    for size in [1, 512] {
        let image = [7; 512];
        let mut disk = MemDisk::new(rt.alloc(), &image[..size], &[], None, 16, 64)?;
        assert!(rt; make(rt.alloc(), &mut disk, 3)? == Err(FormatError::NotEmpty));
        assert!(rt; disk.calls() == [DiskCall::Size].as_slice());
    }
    Ok(())
}

#[test]
fn a_call_that_fails_is_a_fault(rt: HostRuntime) -> Result<(), Fail> {
    for failing in 1..9 {
        let mut disk = disk_of(rt.alloc(), failing, None)?;
        assert!(rt;
            make(rt.alloc(), &mut disk, 3)? == Err(FormatError::DiskFault),
            "{failing}"
        );
        assert!(rt; disk.calls().len() as u64 == failing, "{failing}");
    }
    Ok(())
}

/// Whether a crash after so many calls leaves no magic, or the whole file.
fn is_none_or_whole(
    alloc: Global,
    stop: u64,
    choice: Choice,
    whole: &[u8],
) -> Result<bool, Memory> {
    let mut disk = disk_of(alloc, 0, Some(stop))?;
    let _ = make(alloc, &mut disk, 3)?;
    let left = disk.after_crash(alloc, choice)?;
    Ok(!left.as_slice().starts_with(b"spbstore") || left.as_slice() == whole)
}

#[test]
fn a_stop_leaves_no_store_or_the_whole_one(rt: HostRuntime) -> Result<(), Fail> {
    let mut disk = disk_of(rt.alloc(), 0, None)?;
    make(rt.alloc(), &mut disk, 3)??;
    for stop in 0..9 {
        for choice in [Choice::KeepAll, Choice::DropAll, Choice::Fill(0x37)] {
            assert!(rt;
                is_none_or_whole(rt.alloc(), stop, choice, disk.image())?,
                "{stop}"
            );
        }
    }
    Ok(())
}

#[test]
fn errors_have_texts(rt: HostRuntime) -> Result<(), Fail> {
    assert!(rt; format!(in rt.alloc(); "{}", FormatError::NotEmpty)?.as_str() == "not empty");
    assert!(rt; format!(in rt.alloc(); "{}", FormatError::DiskFault)?.as_str() == "disk fault");
    assert!(rt; format!(in rt.alloc(); "{}", FormatError::Memory)?.as_str() == "out of memory");
    Ok(())
}
