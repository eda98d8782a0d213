//! The one assertion of all tests.

ghost use Rattle.std.specs.Prelude.{IsTrue};

use std::process::Abort;

/// The test goes on where this is so. An `assert!` costs the proof of each function that has one half a second, and a call of this one a
/// tenth, so the tests ask all that they ask here.
pub fn check(rt: &impl Abort, so: bool)
    ensures { IsTrue so }
{
    assert!(rt; so);
}
