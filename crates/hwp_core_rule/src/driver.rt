ghost use Rattle.std.specs.Prelude.{◌≡◌};
ghost use Rattle.hwp_core_rule.specs.Turns.{Advances};

use crate::ops::Ops;
use crate::task::Task;
use crate::turn::Turn;

/// The task's next turn: one step, or none where it is over.
pub fn advance<O: Ops, M: Task>(m: &mut M, o: &mut O) -> Turn
    requires ready { O.ready o.old }
    requires fits { M.task.fits (O.layout o.old) (O.view o.old) m.old }
    ensures fits { M.task.fits (O.layout o.new) (O.view o.new) m.new }
    ensures same { O.layout o.new ≡ O.layout o.old }
    ensures own { (M.task.who m.new).cpu ≡ (M.task.who m.old).cpu }
    ensures turn { Advances M.task (O.layout o.old) (O.view o.old) (O.view o.new) (λ r. O.moves o.old r o.new) (o.new ≡ o.old) m.old m.new result }
{
    match m.plan() {
        None => Turn::Finished,
        Some(step) => {
            let who = m.who();
            let body = m.give();
            let met = o.step(who, &step, body);
            m.settle(o.layout(), met.found, met.body)
        }
    }
}
