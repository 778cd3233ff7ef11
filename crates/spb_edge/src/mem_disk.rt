//! A disk in memory that keeps a record of its calls, and shows its crash states.
ghost use Rattle.std.specs.Prelude.{◌≡◌, ◌+◌, ◌≤◌, [], IsTrue, true, IfOk, OnOk, length, take, drop, if◌then◌else◌};
ghost use Rattle.spb_edge.specs.CallLog.{succeeds};
ghost use Rattle.spb_edge.specs.Contents.{IsCrashState};
ghost use Rattle.spb_edge.specs.Crash.{IsTornWrite, FollowsBy, Includes, IsDurable, Elapses};
ghost use Rattle.spb_edge.specs.Disk.{IsSize, Overwrites, Extends, CountsFault, CountsWriteFault};
ghost use Rattle.spb_edge.specs.Fault.{next_count};
ghost use Rattle.spb_edge.specs.MemDisk.{new_disk, disk_after, crash_states_since, chosen_crash_state, IsQuietDisk, AnswersWrite};

use crate::call_log::{DiskCall, Log};
use crate::contents::Contents;
use crate::{Bytes, Disk, DiskError, Memory};
use std::alloc::Global;
use std::marker::Model;

/// What a crash leaves of what was written since the last sync that succeeded.
#[derive(Clone, Copy, Debug, PartialEq, Eq)]
pub enum Choice {
    /// All of it: the image as it reads.
    KeepAll,
    /// Nothing of it: the image that the sync kept.
    DropAll,
    /// This byte at each place of each range.
    Fill(u8),
}

/// A disk in memory that keeps a record of its calls, some of which fail, and shows its crash states.
///
/// A write costs what it writes, and a sync a copy of the image. Each call looks its number up in the
/// list of those that fail.
#[derive(Debug, Drop)]
pub struct MemDisk {
    // What it held before each call follows from this image and the record: no code asks for it.
    first: Vec<u8>,
    log: Log,
    held: Contents,
    reads: u64,
}

impl Model for MemDisk {
    ghost use Rattle.spb_edge.specs.MemDisk.{DiskState, IsReplayed};

    ghost Value = { DiskState };

    ghost view = { λ d. record { first = d.first.items; log = d.log; held = d.held; reads = d.reads } };

    ghost invariant = { λ d. IsReplayed d.first.items d.log d.held };
}

impl MemDisk {
    /// A disk with three copies of `image`: as it reads, as it is kept, and as it was given. Its record
    /// has room for `calls` calls and `bytes` written bytes, whose memory it takes now. Calls are
    /// numbered from 1. Those whose number is in `failing` fail. After `stop` calls, or with no room
    /// left in the record, a call changes nothing, fails, and is not in the record; no other call fails.
    pub fn new(
        alloc: Global,
        image: &[u8],
        failing: &[u64],
        stop: Option<u64>,
        calls: usize,
        bytes: usize,
    ) -> Result<MemDisk, Memory>
        ensures { IfOk result (λ disk. disk ≡ new_disk image.now failing.now stop calls bytes) }
    {
        Ok(MemDisk {
            first: Vec::from_slice(alloc, image)?,
            log: Log::new(alloc, failing, stop, calls, bytes)?,
            held: Contents::new(alloc, image, calls)?,
            reads: 0,
        })
    }

    /// The calls so far, in order.
    pub fn calls(&self) -> &[DiskCall]
        ensures { result.now ≡ self.now.log.calls }
    {
        self.log.calls()
    }

    /// The bytes of the writes so far, joined in order.
    pub fn written(&self) -> &[u8]
        ensures { result.now ≡ self.now.log.written }
    {
        self.log.written()
    }

    /// The image as it reads.
    pub fn image(&self) -> &[u8]
        ensures { result.now ≡ self.now.held.image }
    {
        self.held.image()
    }

    /// An image that a crash now may leave, at the cost of a copy and, to fill, of the ranges since the
    /// last sync that succeeded.
    pub fn after_crash(&self, alloc: Global, choice: Choice) -> Result<Bytes, Memory>
        ensures chosen { IfOk result (λ bytes. bytes ≡ chosen_crash_state choice self.now.held) }
        ensures may_leave { IfOk result (λ bytes. IsCrashState self.now.held bytes) }
    {
        match choice {
            Choice::KeepAll => Bytes::of(alloc, self.held.image()),
            Choice::DropAll => Bytes::of(alloc, self.held.kept()),
            Choice::Fill(byte) => self.held.filled(alloc, byte),
        }
    }
}

impl Disk for MemDisk {
    ghost use Rattle.std.proofs.Common.{inl, refl};
    ghost use Rattle.spb_edge.specs.MemDisk.{crash_states_since, IsQuietDisk, only_now};
    ghost use Rattle.spb_edge.specs.Quiet.{quiet_same, quiet_chains};

    ghost is_known = { λ _. true };

    ghost knows_crashes = { λ _. true };

    ghost image = { λ d. d.held.image };

    ghost size_of = { λ d. length d.held.image };

    ghost crash_states = { λ d. IsCrashState d.held };

    ghost moment = { λ d. length d.log.calls };

    ghost crash_states_since = { crash_states_since };

    ghost reads = { λ d. d.reads };

    ghost faults = { λ d. d.log.faults };

    ghost quiet = { IsQuietDisk };

    ghost length_is = { λ _ _. refl };

    ghost leaves_image = { λ _ _. inl refl };

    ghost counts_now = { λ _ _ _ _ left. inl left };

    ghost only_now = { only_now };

    ghost quiet_is = { λ _ _ quiet. quiet };

    ghost quiet_same = { λ d. quiet_same _ _ _ _ _ _ _ d (only_now d) };

    ghost quiet_chains = { λ old mid new first second. quiet_chains _ _ _ _ _ _ _ old mid new first second };

    fn size(&mut self) -> Result<u64, DiskError>
        ensures size { IsSize result (length self.old.held.image) }
        ensures length { length self.new.held.image ≡ length self.old.held.image }
        ensures image { self.new.held.image ≡ self.old.held.image }
        ensures quiet { IsQuietDisk self.old self.new }
        ensures reads { self.new.reads ≡ self.old.reads }
        ensures fault { CountsFault result self.old.log.faults self.new.log.faults }
        // Exactly the calls fail that aren't made and those that were chosen.
        ensures state { self.new ≡ disk_after DiskCall.Size [] self.old }
        ensures answer { result ≡ (if succeeds self.old.log 0 then Ok (length self.old.held.image) else Err DiskError.Failed) }
    {
        self.log.call(DiskCall::Size)?;
        Ok(self.held.image().len() as u64)
    }

    fn read(&mut self, at: u64, into: &mut [u8]) -> Result<(), DiskError>
        requires { at + length into.old ≤ length self.old.held.image }
        ensures data { OnOk result (into.new ≡ take (length into.old) (drop at self.old.held.image)) }
        ensures length { length self.new.held.image ≡ length self.old.held.image }
        ensures image { self.new.held.image ≡ self.old.held.image }
        ensures quiet { IsQuietDisk self.old self.new }
        ensures reads { self.new.reads ≡ next_count self.old.reads }
        ensures fault { CountsFault result self.old.log.faults self.new.log.faults }
        ensures state { self.new ≡ record (disk_after (DiskCall.Read at (length into.old)) [] self.old) { reads = next_count self.old.reads } }
        ensures answer { result ≡ (if succeeds self.old.log 0 then Ok tt else Err DiskError.Failed) }
    {
        self.reads = self.reads.saturating_add(1);
        let len = into.len() as u64;
        self.log.call(DiskCall::Read { at, len })?;
        let at = at as usize;
        into.copy_from_slice(&self.held.image()[at..at + into.len()]);
        Ok(())
    }

    fn write_at(&mut self, at: u64, bytes: &[u8]) -> Result<(), DiskError>
        requires { at ≤ length self.old.held.image }
        ensures image { Overwrites result at bytes.now self.old.held.image self.new.held.image }
        ensures length { Extends result (length self.old.held.image) (at + length bytes.now) (length self.new.held.image) }
        ensures crash { FollowsBy (IsTornWrite at (length bytes.now)) (IsCrashState self.old.held) (IsCrashState self.new.held) }
        ensures time { Elapses (length self.old.log.calls) (length self.new.log.calls) (crash_states_since self.old) (crash_states_since self.new)
            (IsCrashState self.new.held) }
        ensures reads { self.new.reads ≡ self.old.reads }
        ensures fault { CountsWriteFault result (length self.old.held.image) (at + length bytes.now) self.old.log.faults self.new.log.faults }
        ensures exact { AnswersWrite result self.old at bytes.now self.new }
    {
        if !self.log.accepts(bytes.len()) {
            self.log.refuse();
            return Err(DiskError::Failed);
        }
        let start = at as usize;
        let len = bytes.len() as u64;
        if self.log.fails_next() {
            self.held.tear(start, bytes.len());
            return self.log.note(DiskCall::Write { at, len }, bytes);
        }
        if let Err(_) = self.held.write(start, bytes) {
            return Err(DiskError::Memory);
        }
        self.log.note(DiskCall::Write { at, len }, bytes)
    }

    fn sync(&mut self) -> Result<(), DiskError>
        ensures kept { OnOk result (IsDurable self.old.held.image (IsCrashState self.new.held)) }
        ensures length { length self.new.held.image ≡ length self.old.held.image }
        ensures image { self.new.held.image ≡ self.old.held.image }
        ensures crash { Includes (IsCrashState self.old.held) (IsCrashState self.new.held) }
        ensures time { Elapses (length self.old.log.calls) (length self.new.log.calls) (crash_states_since self.old) (crash_states_since self.new)
            (IsCrashState self.new.held) }
        ensures reads { self.new.reads ≡ self.old.reads }
        ensures fault { CountsFault result self.old.log.faults self.new.log.faults }
        ensures state { self.new ≡ disk_after DiskCall.Sync [] self.old }
        ensures answer { result ≡ (if succeeds self.old.log 0 then Ok tt else Err DiskError.Failed) }
    {
        self.log.call(DiskCall::Sync)?;
        self.held.keep();
        Ok(())
    }
}
