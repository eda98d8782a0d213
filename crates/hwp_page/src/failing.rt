ghost use Rattle.std.specs.Prelude.{◌≡◌, ◌↔◌, IsTrue};
ghost use Rattle.hwp_kill.specs.hwp_geom.Layout.{IsSound};
ghost use Rattle.hwp_kill.specs.Kill.{Killed};
ghost use Rattle.hwp_page.specs.Step.{IsSeenList};

use hwp_kill::{Layout, List, Seen, Signal, SignalList, Slots, Thread, are_policies_read, signals};

/// Whether these are the threads whose policies a memory failure reads, for the policies that the list names.
pub(crate) fn is_seen_list(
    layout: &Layout,
    maps: &Slots,
    signals_at_all: bool,
    required: Option<Thread>,
    seen: &List<Seen>,
) -> bool
    requires { IsSound layout.now }
    ensures { IsTrue result ↔ IsSeenList layout.now maps.now signals_at_all required seen.now }
{
    if signals_at_all {
        are_policies_read(layout, maps, required, seen)
    } else {
        seen.as_slice().is_empty()
    }
}

/// Whether these are the signals of a memory failure, by the kill table.
pub(crate) fn are_signals(
    layout: &Layout,
    maps: &Slots,
    signals_at_all: bool,
    always: bool,
    required: Option<Thread>,
    seen: &List<Seen>,
    listed: &List<Signal>,
) -> bool
    requires { IsSound layout.now }
    ensures { IsTrue result ↔ Killed layout.now maps.now signals_at_all always required seen.now listed.now }
{
    let mut due = SignalList::new();
    signals(
        layout,
        maps,
        signals_at_all,
        always,
        required,
        seen,
        &mut due,
    );
    are_equal(due.as_slice(), listed.as_slice())
}

fn are_equal(first: &[Signal], second: &[Signal]) -> bool
    ensures { IsTrue result ↔ (first.now ≡ second.now) }
{
    first == second
}
