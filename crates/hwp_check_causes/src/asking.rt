ghost use Rattle.std.specs.Prelude.{◌≡◌, ◌↔◌, IsTrue};
ghost use Rattle.hwp_check_evidence.specs.hwp_law.States.{state_named};
ghost use Rattle.hwp_check_causes.specs.Asking.{IsAskable, IsAtPage, IsDropOf, IsFreeOf, IsLeavingOf};

use hwp_check_rules::{Answer, At, Command, Layout, Page, leads_to};

/// Whether the command is one of this page.
fn is_at_page(command: &Command, page: Page) -> bool
    ensures { IsTrue result ↔ IsAtPage command.now page }
{
    match *command {
        Command::Drop { page: named }
        | Command::Sync { page: named }
        | Command::Out { page: named } => page == named,
        _ => false,
    }
}

/// Whether it drops the page.
fn is_drop_of(command: &Command, page: Page) -> bool
    ensures { IsTrue result ↔ IsDropOf command.now page }
{
    match *command {
        Command::Drop { page: named } => page == named,
        _ => false,
    }
}

/// Whether it drops the page or swaps it out.
fn is_leaving_of(command: &Command, page: Page) -> bool
    ensures { IsTrue result ↔ IsLeavingOf command.now page }
{
    match *command {
        Command::Drop { page: named } | Command::Out { page: named } => page == named,
        _ => false,
    }
}

/// Whether it frees a translation of the page.
fn is_free_of(layout: &Layout, command: &Command, page: Page) -> bool
    ensures { IsTrue result ↔ IsFreeOf layout.now command.now page }
{
    match *command {
        Command::Free { slot } => leads_to(layout, page, slot),
        _ => false,
    }
}

/// Whether the command can have this answer of the page that it names.
pub(crate) fn is_askable(layout: &Layout, command: &Command, answer: &Answer) -> bool
    ensures { IsTrue result ↔ IsAskable layout.now command.now answer.now }
{
    match *answer {
        Answer::NotResident(at) => is_at_page(command, at.page),
        Answer::NotMapped(at) => is_free_of(layout, command, at.page),
        Answer::Dirty(at) => is_drop_of(command, at.page),
        Answer::Mapped(at) => is_drop_of(command, at.page),
        Answer::Locked(at) => is_leaving_of(command, at.page),
        _ => false,
    }
}

/// The number of entries that an answer names, where it says what state a page was in.
pub fn named_state(answer: &Answer) -> Option<At>
    ensures { result ≡ state_named answer.now }
{
    match *answer {
        Answer::NotResident(at) => Some(at),
        Answer::NotMapped(at) => Some(at),
        Answer::Dirty(at) => Some(at),
        Answer::Mapped(at) => Some(at),
        Answer::Locked(at) => Some(at),
        Answer::BadLines(_, at) => Some(at),
        _ => None,
    }
}
