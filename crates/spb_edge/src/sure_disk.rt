//! A disk in memory that never fails.
ghost use Rattle.std.specs.Prelude.{◌≡◌, ◌+◌, true, IfOk, length};
ghost use Rattle.spb_edge.specs.SureDisk.{Image};

use crate::lay::lay;
use crate::{Bytes, Disk, DiskError, Memory};
use std::alloc::Global;
use std::marker::Model;

/// A disk in memory that never fails and whose image is known.
#[derive(Debug, Drop)]
pub struct SureDisk {
    image: Vec<u8>,
    reads: u64,
}

impl Model for SureDisk {
    ghost use Rattle.spb_edge.specs.SureDisk.{Image};

    ghost Value = { Image };

    ghost view = { λ d. record { bytes = d.image.items; reads = d.reads } };
}

impl SureDisk {
    /// A disk with a copy of the image.
    pub fn new(alloc: Global, image: &[u8]) -> Result<SureDisk, Memory>
        ensures { IfOk result (λ disk. (disk.bytes ≡ image.now) × (disk.reads ≡ 0)) }
    {
        Ok(SureDisk {
            image: Vec::from_slice(alloc, image)?,
            reads: 0,
        })
    }
}

impl Disk for SureDisk {
    ghost use Rattle.std.proofs.Common.{false, refl, ◌∙◌};
    ghost use Rattle.spb_edge.specs.SureDisk.{quiet_is};

    ghost is_known = { λ _. true };

    ghost knows_crashes = { λ _. false };

    ghost image = { λ d. d.bytes };

    ghost size_of = { λ d. length d.bytes };

    ghost crash_states = { λ _ _. Unit };

    ghost moment = { λ _. 0 };

    ghost crash_states_since = { λ _ _ _. Unit };

    ghost reads = { λ d. d.reads };

    ghost faults = { λ _. 0 };

    ghost quiet = { λ old new. new.bytes ≡ old.bytes };

    ghost length_is = { λ _ _. refl };

    ghost leaves_image = { λ _ _. tt };

    ghost counts_now = { λ _ _ _ _ _. tt };

    ghost only_now = { λ _ _ _. tt };

    ghost quiet_is = { λ old new same. quiet_is old new same };

    ghost quiet_same = { λ _. refl };

    ghost quiet_chains = { λ _ _ _ first second. second ∙ first };

    fn size(&mut self) -> Result<u64, DiskError> {
        Ok(self.image.len() as u64)
    }

    fn read(&mut self, at: u64, into: &mut [u8]) -> Result<(), DiskError> {
        self.reads = self.reads.saturating_add(1);
        let at = at as usize;
        into.copy_from_slice(&self.image[at..at + into.len()]);
        Ok(())
    }

    fn write_at(&mut self, at: u64, bytes: &[u8]) -> Result<(), DiskError> {
        if let Err(_) = lay(&mut self.image, at as usize, bytes) {
            return Err(DiskError::Memory);
        }
        Ok(())
    }

    fn sync(&mut self) -> Result<(), DiskError> {
        Ok(())
    }
}
