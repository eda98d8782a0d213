use hwp_banks::Origin;
use hwp_law::{Answer, Line};

/// What the report says of a command: how many machine checks of an access its entries show, and its answer.
#[derive(Clone, Copy)]
pub(crate) struct Known {
    pub checks: u64,
    pub answer: Option<Answer>,
}

/// The machine checks of an access: what makes their own event, at which line, and how many there are.
#[derive(Clone, Copy)]
pub(crate) struct Checks {
    pub origin: Origin,
    pub at: Line,
    pub count: u64,
}
