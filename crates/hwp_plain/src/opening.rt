ghost use Rattle.std.specs.Prelude.{◌≡◌, map, IfOk};
ghost use Rattle.std.specs.Arc.{arc_value};
ghost use Rattle.hwp_core_rule.specs.hwp_geom.Layout.{IsSound};
ghost use Rattle.hwp_core_rule.specs.Lists.{EachMember};
ghost use Rattle.hwp_core_rule.specs.Opening.{opening_homes};
ghost use Rattle.hwp_core_rule.specs.Calls.{FitsLayout};
ghost use Rattle.hwp_plain.specs.Openings.{home_with};

use hwp_core_rule::{Body, Layout, OutOfMemory, Page};
use std::alloc::Global;
use std::sync::Arc;

/// What is in the slots of the frames, which are empty, and then on the shelves of the pages: their bodies at opening.
pub fn opening_bodies(
    alloc: Global,
    layout: &Arc<Layout, Global>,
) -> Result<Vec<Option<Body>>, OutOfMemory>
    requires sound { IsSound (arc_value layout.now) }
    ensures homes { IfOk result (λ bodies. map home_with bodies.items ≡ opening_homes (arc_value layout.now)) }
    ensures layouts { IfOk result (λ bodies. EachMember (FitsLayout (arc_value layout.now)) bodies.items) }
{
    let mut bodies = Vec::new(alloc);
    let declared: &Layout = layout;
    for _frame in 0..declared.frames {
        bodies.push(None)?;
    }
    for page in 0..declared.pages.len() as u16 {
        let body = Body::new(alloc, layout, Page(page))?;
        bodies.push(Some(body))?;
    }
    Ok(bodies)
}
