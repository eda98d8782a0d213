ghost use Rattle.std.specs.Prelude.{◌≢◌, All, MatchOption};
ghost use Rattle.hwp_report.specs.Cutting.{IsCut, IsFirstFeed};

/// Where the first line feed of a text is.
fn first_feed(text: &[u8]) -> Option<usize>
    ensures { MatchOption result (All (λ b. b ≢ 10) text.now) (IsFirstFeed text.now) }
{
    for (at, byte) in text.iter().enumerate() {
        if *byte == b'\n' {
            return Some(at);
        }
    }
    None
}

/// The first line of a text, without its line feed, and the text behind it.
pub fn first_line(text: &[u8]) -> Option<(&[u8], &[u8])>
    ensures { MatchOption result (All (λ b. b ≢ 10) text.now) (λ both. IsCut text.now both.0.now both.1.now) }
{
    let Some(end) = first_feed(text) else {
        return None;
    };
    Some((&text[..end], &text[end + 1..]))
}
