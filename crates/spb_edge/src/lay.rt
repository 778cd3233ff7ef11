//! Overwriting an image in memory.
ghost use Rattle.std.specs.Prelude.{◌≡◌, ◌≤◌, ◌+◌, ◌<◌, OnOk, OnErr, length, vec_len, vec_capacity};
ghost use Rattle.spb_edge.specs.Disk.{overwritten_at};

use crate::Memory;

/// Overwrites an image with bytes that begin within it or at its end. It runs out of memory only if they reach past the
/// capacity, and then nothing changes.
pub(crate) fn lay(image: &mut Vec<u8>, at: usize, bytes: &[u8]) -> Result<(), Memory>
    requires { at ≤ length image.old.items }
    ensures laid { OnOk result (image.new.items ≡ overwritten_at image.old.items at bytes.now) }
    ensures kept { OnErr result (image.new.items ≡ image.old.items) }
    ensures full { OnErr result (vec_capacity image.old < at + length bytes.now) }
{
    let over = bytes.len().min(image.len() - at);
    image.extend_from_slice(&bytes[over..])?;
    image[at..at + over].copy_from_slice(&bytes[..over]);
    Ok(())
}
