//! The one line that a program prints when its work is done.
ghost use Rattle.std.specs.Prelude.{◌≡◌, IfOk};
ghost use Rattle.spb_top.specs.Written.{PrintsLine, CountsPrint, made_line, sound_line};

use crate::status::{Status, append_number};
use spb_edge::{Bytes, Memory, Sink, put_all};
use std::alloc::Global;

/// The line of a store that was made, with so many pivots and so many evaluations for their choice.
pub(crate) fn made_line(alloc: Global, pivots: u64, evals: u64) -> Result<Bytes, Memory>
    ensures { IfOk result (λ line. line ≡ made_line pivots evals) }
{
    let mut line = Bytes::of(alloc, &[])?;
    append_number(b"made pivots ", pivots, &mut line)?;
    append_number(b" evals ", evals, &mut line)?;
    line.append(b"\n")?;
    Ok(line)
}

/// The line of a store that was checked, with so many objects.
pub(crate) fn sound_line(alloc: Global, objects: u32) -> Result<Bytes, Memory>
    ensures { IfOk result (λ line. line ≡ sound_line objects) }
{
    let mut line = Bytes::of(alloc, &[])?;
    append_number(b"sound ", u64::from(objects), &mut line)?;
    line.append(b"\n")?;
    Ok(line)
}

/// Puts the line into the output, which is the end of the work.
pub(crate) fn print_line<K: Sink>(output: &mut K, line: &Bytes) -> Status
    ensures line { PrintsLine line.now result (K.taken output.old) (K.taken output.new) }
    ensures fault { CountsPrint result (K.faults output.old) (K.faults output.new) }
{
    match put_all(output, line.as_slice()) {
        Ok(()) => Status::Done,
        Err(_) => Status::WriteFault,
    }
}
