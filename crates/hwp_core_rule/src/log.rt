use hwp_page::{Entry, List, Page};

/// A page body, as the rule sees it: whose body it is, and its history. The page's state is the replay of the history.
#[derive(Drop)]
pub struct Log {
    pub page: Page,
    pub entries: List<Entry>,
}
