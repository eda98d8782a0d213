use hwp_check_rules::Situation;

/// What of a command's marks is counted: its failures in a situation, its moves, and those that it made as an `inject` or an
/// `unpoison`.
#[derive(Clone, Copy)]
pub(crate) enum Kind {
    Failure(Situation),
    Moved,
    Commanded,
}
