ghost use Rattle.std.specs.Prelude.{◌≡◌, ◌*◌, [], IfOk};
ghost use Rattle.std.specs.Arc.{arc_value};
ghost use Rattle.hwp_core_rule.specs.hwp_geom.Layout.{IsSound};
ghost use Rattle.hwp_core_rule.specs.Opening.{opening_words};
ghost use Rattle.hwp_table_words.specs.Known.{first_knowing};
ghost use Rattle.hwp_table_words.specs.Order.{IsOpened, in_rule};
ghost use Rattle.hwp_table_words.specs.Seats.{IsTableOf};

use crate::plays::{Pass, WordTable};
use crate::ways::Ways;
use atomic_table::Table;
use hwp_core_rule::{Layout, OutOfMemory};
use hwp_plain::{opening_bodies, opening_words};
use std::alloc::{AllocError, Global};
use std::sync::Arc;

/// The table of a sound layout at opening, and its one seat, which has the views and the rights of all processors.
pub fn begin<W: Ways>(
    alloc: Global,
    layout: &Arc<Layout, Global>,
) -> Result<(WordTable<W>, Pass), OutOfMemory>
    requires sound { IsSound (arc_value layout.now) }
    ensures table { IfOk result (λ t. IsTableOf W.ways (arc_value layout.now) t.0.shared.table_id × (t.0.shared.key ≡ arc_value layout.now)) }
    ensures seat { IfOk result (λ t. (t.1.table_id ≡ t.0.shared.table_id) × (t.1.me ≡ (first_knowing (arc_value layout.now), []))) }
{
    let declared: &Layout = layout;
    let words = table_words::<W>(alloc, declared)?;
    let bodies = opening_bodies(alloc, layout)?;
    match Table::new(alloc, words.as_slice(), bodies, declared) {
        Ok(opened) => Ok(opened),
        Err(_) => Err(AllocError),
    }
}

/// The words at opening: the machine's, and behind them those of the translation caches, which are empty.
fn table_words<W: Ways>(alloc: Global, layout: &Layout) -> Result<Vec<u64>, OutOfMemory>
    requires sound { IsSound layout.now }
    ensures { IfOk result (λ words. IsOpened layout.now (W.ways * layout.now.cpus) words.items) }
{
    let mut words = machine_words(alloc, layout)?;
    let entries = W::ways() * usize::from(layout.cpus);
    words.resize(words.len() + entries, 0)?;
    Ok(words)
}

/// The machine's words at opening, the stop word first.
fn machine_words(alloc: Global, layout: &Layout) -> Result<Vec<u64>, OutOfMemory>
    requires sound { IsSound layout.now }
    ensures { IfOk result (λ words. in_rule words.items ≡ opening_words layout.now) }
{
    let mut words = opening_words(alloc, layout)?;
    if let Some(stop) = words.pop() {
        words.insert(0, stop)?;
    }
    Ok(words)
}
