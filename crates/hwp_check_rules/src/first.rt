ghost use Rattle.std.specs.Prelude.{◌≡◌};
ghost use Rattle.hwp_check_rules.specs.Firsts.{sooner, sooner_if, soonest};

/// The lower of a line that was found so far, if one was, and one more.
pub fn sooner(found: Option<u64>, line: u64) -> Option<u64>
    ensures { result ≡ sooner found line }
{
    match found {
        None => Some(line),
        Some(first) => Some(first.min(line)),
    }
}

/// The lower of two lines, where there are any.
pub fn soonest(found: Option<u64>, other: Option<u64>) -> Option<u64>
    ensures { result ≡ soonest found other }
{
    match other {
        None => found,
        Some(line) => sooner(found, line),
    }
}

/// The lower of a line that was found so far, if one was, and one more where it counts.
pub fn sooner_if(counts: bool, found: Option<u64>, line: u64) -> Option<u64>
    ensures { result ≡ sooner_if counts found line }
{
    if counts { sooner(found, line) } else { found }
}
