//! What a disk in memory holds: the image as it reads, the kept one, and the ranges written since.
ghost use Rattle.std.specs.Prelude.{◌≡◌, ◌+◌, ◌<◌, ◌≤◌, length, replicate, IfOk, OnOk, OnErr, vec_len, vec_capacity};
ghost use Rattle.spb_edge.specs.Contents.{AreTornOver, fresh_contents, with_range, synced_contents, with_ranges_filled};
ghost use Rattle.spb_edge.specs.Disk.{overwritten_at};

use crate::lay::lay;
use crate::{Bytes, Memory};
use std::alloc::Global;
use std::marker::Model;

/// A range of bytes that was written.
#[derive(Clone, Copy, Debug)]
pub(crate) struct Extent {
    at: usize,
    len: usize,
}

/// The image as it reads, the image that the last sync kept, and the ranges written since.
#[derive(Debug, Drop)]
pub(crate) struct Contents {
    image: Vec<u8>,
    kept: Vec<u8>,
    unsynced: Vec<Extent>,
    room: usize,
}

impl Model for Contents {
    ghost use Rattle.std.specs.Prelude.{◌≤◌, length, vec_capacity};
    ghost use Rattle.spb_edge.specs.Contents as words;

    ghost Value = { words.Contents };

    ghost view = { λ c. record {
      image = c.image.items;
      kept = c.kept.items;
      unsynced = c.unsynced.items;
      room = c.room;
    } };

    ghost invariant = { λ c. (length c.kept.items ≤ length c.image.items) × (length c.image.items ≤ vec_capacity c.kept)
        × (c.room ≤ vec_capacity c.unsynced) × words.ReachTo (length c.kept.items) c.unsynced.items (length c.image.items) };
}

/// Room for `growth` more bytes in the image, and for all of them in the kept one.
fn reserve(image: &mut Vec<u8>, kept: &mut Vec<u8>, growth: usize) -> Result<(), Memory>
    requires { vec_len kept.old ≤ vec_len image.old }
    ensures image { image.new.items ≡ image.old.items }
    ensures kept { kept.new.items ≡ kept.old.items }
    ensures room { vec_capacity kept.old ≤ vec_capacity kept.new }
    ensures ok { OnOk result ((vec_len image.old + growth ≤ vec_capacity image.new) × (vec_len image.old + growth ≤ vec_capacity kept.new)) }
    ensures full { vec_len image.old ≤ vec_capacity kept.old → OnErr result (0 < growth) }
{
    image.reserve(growth)?;
    kept.reserve(image.len() + growth - kept.len())?;
    Ok(())
}

impl Contents {
    /// A copy of the image, all of it kept, and room for `room` ranges.
    pub(crate) fn new(alloc: Global, image: &[u8], room: usize) -> Result<Contents, Memory>
        ensures { IfOk result (λ now. now ≡ fresh_contents image.now room) }
    {
        Ok(Contents {
            image: Vec::from_slice(alloc, image)?,
            kept: Vec::from_slice(alloc, image)?,
            unsynced: Vec::with_capacity(alloc, room)?,
            room,
        })
    }

    /// The image as it reads.
    pub(crate) fn image(&self) -> &[u8]
        ensures { result.now ≡ self.now.image }
    {
        self.image.as_slice()
    }

    /// The image that the last sync kept.
    pub(crate) fn kept(&self) -> &[u8]
        ensures { result.now ≡ self.now.kept }
    {
        self.kept.as_slice()
    }

    /// A range counts as written, though the image stays.
    pub(crate) fn tear(&mut self, at: usize, len: usize)
        requires within { at ≤ length self.old.image }
        requires room { length self.old.unsynced < self.old.room }
        ensures { self.new ≡ with_range at len self.old.image self.old }
    {
        let Ok(()) = self.unsynced.push(Extent { at, len }) else {
            unreachable!()
        };
    }

    /// Overwrites the image with the bytes. It runs out of memory only if the image grows, and then nothing changes.
    pub(crate) fn write(&mut self, at: usize, bytes: &[u8]) -> Result<(), Memory>
        requires within { at ≤ length self.old.image }
        requires room { length self.old.unsynced < self.old.room }
        ensures ok { OnOk result (self.new ≡ with_range at (length bytes.now) (overwritten_at self.old.image at bytes.now) self.old) }
        ensures err { OnErr result (self.new ≡ self.old) }
        ensures full { OnErr result (length self.old.image < at + length bytes.now) }
    {
        let over = bytes.len().min(self.image.len() - at);
        reserve(&mut self.image, &mut self.kept, bytes.len() - over)?;
        let (Ok(()), Ok(())) = (
            lay(&mut self.image, at, bytes),
            self.unsynced.push(Extent {
                at,
                len: bytes.len(),
            }),
        ) else {
            unreachable!()
        };
        Ok(())
    }

    /// Keeps the image as it reads.
    pub(crate) fn keep(&mut self)
        ensures { self.new ≡ synced_contents self.old }
    {
        self.kept.clear();
        let Ok(()) = self.kept.extend_from_slice(&self.image) else {
            unreachable!()
        };
        self.unsynced.clear();
    }

    /// The kept image, with each range written since filled with the byte.
    pub(crate) fn filled(&self, alloc: Global, byte: u8) -> Result<Bytes, Memory>
        ensures filled { IfOk result (λ bytes. bytes ≡ with_ranges_filled byte self.now.kept self.now.unsynced) }
        ensures leaves { IfOk result (λ bytes. AreTornOver self.now.kept self.now.unsynced bytes) }
    {
        let mut image = Vec::from_slice(alloc, &self.kept)?;
        for range in &self.unsynced {
            fill(&mut image, range.at, range.len, byte)?;
        }
        Ok(Bytes::from(image))
    }
}

/// Overwrites an image with `count` of the byte, which begin within it or at its end.
fn fill(image: &mut Vec<u8>, at: usize, count: usize, byte: u8) -> Result<(), Memory>
    requires { at ≤ length image.old.items }
    ensures { OnOk result (image.new.items ≡ overwritten_at image.old.items at (replicate count byte)) }
{
    let growth = count - count.min(image.len() - at);
    // With the room there, the sum of the lengths fits.
    image.reserve(growth)?;
    image.resize(image.len() + growth, byte)?;
    fill_within(image, at, count, byte);
    Ok(())
}

/// Writes `count` of the byte into an image.
fn fill_within(image: &mut [u8], at: usize, count: usize, byte: u8)
    requires { at + count ≤ length image.old }
    ensures { image.new ≡ overwritten_at image.old at (replicate count byte) }
{
    image[at..at + count].fill(byte);
}
