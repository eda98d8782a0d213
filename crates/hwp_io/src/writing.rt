ghost use Rattle.std.specs.Prelude.{◌≡◌, ◌<◌, ◌≤◌, OnOk, OnErr};
ghost use Rattle.std.specs.Io.KnownBytes.{Appends};
ghost use Rattle.hwp_io.specs.Causes.{AppendsStrictFront};

use super::{Failed, Sink};
use thiserror::Error;

/// A sink failed before it had taken a whole text.
#[derive(Clone, Copy, Debug, PartialEq, Eq, Error)]
#[error("write fault")]
pub struct WriteFault;

impl From<Failed> for WriteFault {
    fn from(_failed: Failed) -> WriteFault {
        WriteFault
    }
}

/// Writes the whole text. After a fault the sink has taken a front of it, and not all of it.
pub fn write_all<K: Sink>(out: &mut K, text: &[u8]) -> Result<(), WriteFault>
    ensures whole { OnOk result (Appends (K.taken out.old) (K.taken out.new) text.now) }
    ensures front { OnErr result (AppendsStrictFront (K.taken out.old) (K.taken out.new) text.now) }

    // The count of faults rises at a fault alone.
    ensures later { K.faults out.old ≤ K.faults out.new }
    ensures quiet { OnOk result (K.faults out.new ≡ K.faults out.old) }
    ensures fault { OnErr result (K.faults out.old < K.faults out.new) }
{
    let mut rest = text;
    while !rest.is_empty() {
        let count = out.write(rest)?;
        rest = &rest[count..];
    }
    Ok(())
}
