//! What the causes of statuses exclude, as a contract.
ghost use Rattle.std.specs.Prelude.{Some};
ghost use Rattle.spb_defs.specs.declared.Asked.{Asked};
ghost use Rattle.spb_top.specs.declared.status.Status.{Status};
ghost use Rattle.spb_top.specs.Outside.{Outside};
ghost use Rattle.spb_top.specs.Causes.{CauseOf, Completes};

use store_check::{breaks_refute, no_store_refutes};

/// If nothing is in the way of the work and nothing failed, no status but that the work was done has its cause, want of
/// memory aside. The call does nothing.
pub(crate) fn causes_complete()
    ensures { (asked : Asked) (status : Status) (o : Outside) → CauseOf asked status o → Completes (Some asked) status o }
{
    breaks_refute();
    no_store_refutes();
}
