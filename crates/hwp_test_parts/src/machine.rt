ghost use Rattle.hwp_core.specs.hwp_geom.Layout.{IsSound};

use hwp_core::Layout;
use hwp_script_read::read;
use std::alloc::Global;
use std::process::Abort;

/// The machine that a script declares.
pub(crate) fn machine(rt: &impl Abort, alloc: Global, script: &[u8]) -> Layout
    ensures { IsSound result }
{
    let script = read(alloc, script).ok().expect(rt, "a script");
    script.layout
}
