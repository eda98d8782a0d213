ghost use Rattle.std.specs.Prelude.{◌≡◌};
ghost use Rattle.hwp_geom.specs.declared.Kind.{Kind};
ghost use Rattle.hwp_script_words.specs.Kinds.{kind_text};

use hwp_geom::Kind;

/// The name of a kind of step, as schedules and traces say it (this project's rule).
pub fn kind_name(kind: Kind) -> &'static str
    ensures { result.now ≡ kind_text kind }
{
    match kind {
        Kind::LoadPte => "load_pte",
        Kind::LoadCache => "load_cache",
        Kind::LoadFrame => "load_frame",
        Kind::LoadAvail => "load_avail",
        Kind::LoadFree => "load_free",
        Kind::LoadBad => "load_bad",
        Kind::LoadProc => "load_proc",
        Kind::LoadPolicy => "load_policy",
        Kind::LoadStop => "load_stop",
        Kind::LoadCount => "load_count",
        Kind::Reserve => "reserve",
        Kind::TakeBit => "take_bit",
        Kind::GiveBit => "give_bit",
        Kind::Unreserve => "unreserve",
        Kind::Adopt => "adopt",
        Kind::GetRef => "get_ref",
        Kind::PutRef => "put_ref",
        Kind::LockFrame => "lock_frame",
        Kind::UnlockFrame => "unlock_frame",
        Kind::Retire => "retire",
        Kind::Revive => "revive",
        Kind::SetOwner => "set_owner",
        Kind::LockPage => "lock_page",
        Kind::UnlockPage => "unlock_page",
        Kind::SetPte => "set_pte",
        Kind::SetCache => "set_cache",
        Kind::Poison => "poison",
        Kind::CountPoison => "count_poison",
        Kind::Uncount => "uncount",
        Kind::Spoil => "spoil",
        Kind::Stop => "stop",
        Kind::GiveUp => "give_up",
        Kind::Kill => "kill",
        Kind::SetPolicy => "set_policy",
        Kind::Lose => "lose",
        Kind::ReportLost => "report_lost",
    }
}
