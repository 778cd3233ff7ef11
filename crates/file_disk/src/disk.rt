//! The disk over a file of std.
ghost use Rattle.std.specs.Prelude.{◌≡◌, ◌⊎◌, ◌+◌, ◌^◌, ◌≤◌, None, Some, length, max, IfOk, IsErr};
ghost use Rattle.spb_edge.specs.Disk.{CountsFault, CountsWriteFault};
ghost use Rattle.spb_edge.specs.Crash.{FollowsBy, IsTornWrite};
ghost use Rattle.file_disk.specs.Calls.{CountsCall, AnswersOutcome, AnswersLength, ExtendsIfOk};

use spb_edge::{Disk, DiskError};
use std::fs::OpenFile;
use std::io;
use std::io::ErrorKind;
use std::os::unix::fs::FileExt;

#[cfg(test)]
mod tests;

/// A file of std as a disk. Nothing is known of its bytes.
///
/// The length is the one given at the start, and grows by the disk's own writes that succeed. If there is no file, each
/// call fails. Each call is one of std's on the file, and std repeats what a signal interrupts.
#[derive(Drop)]
pub struct FileDisk<F: FileExt + OpenFile + Drop> {
    file: Option<F>,
    size: u64,
    faults: u64,
}

impl<F: FileExt + OpenFile + Drop> FileDisk<F> {
    /// The disk of a file of `size` bytes, that has counted no fault.
    pub fn new(file: F, size: u64) -> FileDisk<F>
        ensures file { result.file ≡ Some file }
        ensures size { result.size ≡ size }
        ensures faults { result.faults ≡ 0 }
    {
        FileDisk {
            file: Some(file),
            size,
            faults: 0,
        }
    }

    /// A disk without a file, that has counted no fault yet and will count one for each call.
    pub fn absent() -> FileDisk<F>
        ensures file { result.file ≡ None }
        ensures size { result.size ≡ 0 }
        ensures faults { result.faults ≡ 0 }
    {
        FileDisk {
            file: None,
            size: 0,
            faults: 0,
        }
    }

    /// The disk of a file of the length that the system tells. If it tells none, the file is closed and the disk is
    /// without it.
    pub fn of_open(file: F) -> FileDisk<F>
        ensures file { result.file ≡ Some file ⊎ result.file ≡ None }
        ensures faults { result.faults ≡ 0 }
    {
        match file.metadata() {
            Ok(metadata) => FileDisk::new(file, metadata.len()),
            Err(_) => FileDisk::absent(),
        }
    }

    /// How many calls failed so far. At 2^64 - 1 the number stays.
    pub fn faults(&self) -> u64
        ensures { result ≡ self.now.faults }
    {
        self.faults
    }

    /// What the disk answers to a call on its file. A failure is counted.
    fn counted<T>(&mut self, outcome: io::Result<T>) -> Result<T, DiskError>
        ensures outcome { AnswersOutcome outcome result }
        ensures fault { CountsFault result self.old.faults self.new.faults }
        ensures counts { CountsCall result self.old.faults self.new.faults }
        ensures file { self.new.file ≡ self.old.file }
        ensures size { self.new.size ≡ self.old.size }
    {
        match outcome {
            Ok(value) => Ok(value),
            Err(_) => {
                self.faults = self.faults.saturating_add(1);
                Err(DiskError::Failed)
            }
        }
    }

    /// The file, if there is one.
    fn opened(&self) -> io::Result<&F>
        ensures absent { self.now.file ≡ None → IsErr result }
    {
        match &self.file {
            Some(file) => Ok(file),
            None => Err(no_file()),
        }
    }

    /// The kept length, if there is a file.
    fn length(&self) -> io::Result<u64>
        ensures { AnswersLength self.now.file self.now.size result }
    {
        if self.file.is_none() {
            return Err(no_file());
        }
        Ok(self.size)
    }

    /// Fills `into` with the bytes of the file from `at` on.
    fn read_range(&self, at: u64, into: &mut [u8]) -> io::Result<()>
        ensures absent { self.now.file ≡ None → IsErr result }
        ensures past { 2 ^ 64 ≤ at + length into.old → IsErr result }
    {
        let file = self.opened()?;
        let _end = range_end(at, into.len())?;
        file.read_exact_at(into, at)
    }

    /// Writes all bytes into the file from `at` on, and answers where they end.
    fn write_range(&self, at: u64, bytes: &[u8]) -> io::Result<u64>
        ensures absent { self.now.file ≡ None → IsErr result }
        ensures past { 2 ^ 64 ≤ at + length bytes.now → IsErr result }
        ensures end { IfOk result (λ end. end ≡ at + length bytes.now) }
    {
        let file = self.opened()?;
        let end = range_end(at, bytes.len())?;
        file.write_all_at(bytes, at)?;
        Ok(end)
    }

    /// Has the system put what was written onto the medium.
    fn sync_file(&self) -> io::Result<()>
        ensures absent { self.now.file ≡ None → IsErr result }
    {
        self.opened()?.sync_data()
    }
}

impl<F: FileExt + OpenFile + Drop> Disk for FileDisk<F> {
    ghost use Rattle.std.proofs.Common.{false, [], refl, ◌≡◌, ◌∙◌};
    ghost use Rattle.std.proofs.lemmas.Bool.{false≢true};
    ghost use Rattle.file_disk.specs.Quiet.{quiet_is};

    ghost is_known = { λ _. false };

    ghost knows_crashes = { λ _. false };

    ghost image = { λ _. [] };

    ghost size_of = { λ d. d.size };

    ghost crash_states = { λ _ _. Unit };

    ghost moment = { λ _. 0 };

    ghost crash_states_since = { λ _ _ _. Unit };

    ghost reads = { λ _. 0 };

    ghost faults = { λ d. d.faults };

    ghost quiet = { λ old new. new.size ≡ old.size };

    ghost length_is = { λ _ known. absurd (false≢true known) };

    ghost leaves_image = { λ _ _. tt };

    ghost counts_now = { λ _ _ _ _ _. tt };

    ghost only_now = { λ _ _ _. tt };

    ghost quiet_is = { λ old new same. quiet_is (λ d. d.size) old new same };

    ghost quiet_same = { λ _. refl };

    ghost quiet_chains = { λ _ _ _ first second. second ∙ first };

    fn size(&mut self) -> Result<u64, DiskError>
        ensures answer { AnswersLength self.old.file self.old.size result }
        ensures fault { CountsFault result self.old.faults self.new.faults }
        // Only a failure is counted.
        ensures counts { CountsCall result self.old.faults self.new.faults }
        ensures file { self.new.file ≡ self.old.file }
        ensures length { self.new.size ≡ self.old.size }
    {
        let length = self.length();
        self.counted(length)
    }

    fn read(&mut self, at: u64, into: &mut [u8]) -> Result<(), DiskError>
        ensures absent { self.old.file ≡ None → IsErr result }
        ensures past { 2 ^ 64 ≤ at + length into.old → IsErr result }
        ensures fault { CountsFault result self.old.faults self.new.faults }
        // Only a failure is counted.
        ensures counts { CountsCall result self.old.faults self.new.faults }
        ensures file { self.new.file ≡ self.old.file }
        ensures length { self.new.size ≡ self.old.size }
    {
        let outcome = self.read_range(at, into);
        self.counted(outcome)
    }

    fn write_at(&mut self, at: u64, bytes: &[u8]) -> Result<(), DiskError>
        ensures absent { self.old.file ≡ None → IsErr result }
        ensures past { 2 ^ 64 ≤ at + length bytes.now → IsErr result }
        ensures crash { FollowsBy (IsTornWrite at (length bytes.now)) (λ _. Unit {0}) (λ _. Unit {0}) }
        ensures fault { CountsWriteFault result self.old.size (at + length bytes.now) self.old.faults self.new.faults }
        // Only a failure is counted.
        ensures counts { CountsCall result self.old.faults self.new.faults }
        ensures file { self.new.file ≡ self.old.file }
        ensures length { ExtendsIfOk result self.old.size (at + length bytes.now) self.new.size }
    {
        let outcome = self.write_range(at, bytes);
        match self.counted(outcome) {
            Ok(end) => {
                self.size = self.size.max(end);
                Ok(())
            }
            Err(error) => Err(error),
        }
    }

    fn sync(&mut self) -> Result<(), DiskError>
        ensures absent { self.old.file ≡ None → IsErr result }
        ensures fault { CountsFault result self.old.faults self.new.faults }
        // Only a failure is counted.
        ensures counts { CountsCall result self.old.faults self.new.faults }
        ensures file { self.new.file ≡ self.old.file }
        ensures length { self.new.size ≡ self.old.size }
    {
        let outcome = self.sync_file();
        self.counted(outcome)
    }
}

/// The error of a call if there is no file.
fn no_file() -> io::Error {
    io::Error::from(ErrorKind::NotFound)
}

/// Where a range of `count` bytes from `at` on ends.
///
/// # Errors
///
/// `InvalidInput` if that is past 2^64 - 1.
fn range_end(at: u64, count: usize) -> io::Result<u64>
    ensures end { IfOk result (λ end. end ≡ at + count) }
    ensures past { 2 ^ 64 ≤ at + count → IsErr result }
{
    match at.checked_add(count as u64) {
        Some(end) => Ok(end),
        None => Err(io::Error::from(ErrorKind::InvalidInput)),
    }
}
