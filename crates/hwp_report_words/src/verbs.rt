ghost use Rattle.std.specs.Prelude.{◌≡◌};
ghost use Rattle.hwp_report_words.specs.pages.Verbs.{verb_text};

/// The first word of an entry.
#[derive(Clone, Copy)]
pub enum Verb {
    Load,
    Store,
    In,
    Map,
    Free,
    Drop,
    Sync,
    Out,
    Mce,
    Fail,
    Soft,
}

impl Verb {
    /// The text of the word.
    pub fn text(self) -> &'static str
        ensures { result.now ≡ verb_text self }
    {
        match self {
            Verb::Load => "load",
            Verb::Store => "store",
            Verb::In => "in",
            Verb::Map => "map",
            Verb::Free => "free",
            Verb::Drop => "drop",
            Verb::Sync => "sync",
            Verb::Out => "out",
            Verb::Mce => "mce",
            Verb::Fail => "fail",
            Verb::Soft => "soft",
        }
    }
}
