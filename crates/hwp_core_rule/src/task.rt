ghost use Rattle.std.specs.Prelude.{◌≡◌, ◌↔◌, IsTrue, None};
ghost use Rattle.hwp_core_rule.specs.Turns.{IsTask, Member};

use crate::step::Step;
use crate::turn::Turn;
use hwp_page::{Body, Layout, Who};

/// A task: which step comes, and what follows from the word and the body that it met. It is data; `advance` makes its steps.
pub trait Task {
    /// The table of the task's steps, what they need, and how far it is from its end.
    ghost task: { Member Self };

    /// The command that the steps are of. Its clause `law` is of all tasks of this type: where a task fits, its processor
    /// can make the step that comes, and what follows fits again.
    fn who(&self) -> Who
        ensures who { result ≡ task.who self.now }
        ensures law { IsTask task };

    /// The step that comes; `None` where the task is over.
    fn plan(&self) -> Option<Step>
        ensures { result ≡ task.plan self.now };

    /// The body that goes home with the step.
    fn give(&mut self) -> Option<Body>
        ensures given { result ≡ task.put self.old }
        ensures bare { self.new ≡ task.bare self.old };

    /// What follows from the word that the step met, and from the body of the slot whose lock it took.
    fn settle(&mut self, layout: &Layout, found: u64, body: Option<Body>) -> Turn
        requires shows { task.shows self.old found body }
        ensures { task.next layout.now self.old found body self.new result };
}

/// Whether no step is left.
pub fn is_over<T: Task>(task: &T) -> bool
    ensures { IsTrue result ↔ (T.task.plan task.now ≡ None) }
{
    task.plan().is_none()
}
