ghost use Rattle.std.specs.Prelude.{◌≡◌, IfSome, IfNone};
ghost use Rattle.hwp_script_words.specs.hwp_geom.declared.Kind.{Kind};
ghost use Rattle.hwp_script_words.specs.Kinds.{kind_text};

use hwp_script_words::{Kind, is_text, kind_name};

/// All kinds of step.
const KINDS: [Kind; 36] = [
    Kind::LoadPte,
    Kind::LoadCache,
    Kind::LoadFrame,
    Kind::LoadAvail,
    Kind::LoadFree,
    Kind::LoadBad,
    Kind::LoadProc,
    Kind::LoadPolicy,
    Kind::LoadStop,
    Kind::LoadCount,
    Kind::Reserve,
    Kind::TakeBit,
    Kind::GiveBit,
    Kind::Unreserve,
    Kind::Adopt,
    Kind::GetRef,
    Kind::PutRef,
    Kind::LockFrame,
    Kind::UnlockFrame,
    Kind::Retire,
    Kind::Revive,
    Kind::SetOwner,
    Kind::LockPage,
    Kind::UnlockPage,
    Kind::SetPte,
    Kind::SetCache,
    Kind::Poison,
    Kind::CountPoison,
    Kind::Uncount,
    Kind::Spoil,
    Kind::Stop,
    Kind::GiveUp,
    Kind::Kill,
    Kind::SetPolicy,
    Kind::Lose,
    Kind::ReportLost,
];

/// The kind of step that a word names.
pub(crate) fn read_kind(word: &[u8]) -> Option<Kind>
    ensures some { IfSome result (λ k. word.now ≡ kind_text k) }
    ensures none { IfNone result ((k : Kind) → word.now ≡ kind_text k → ⊥) }
{
    for kind in &KINDS {
        if is_text(word, kind_name(*kind)) {
            return Some(*kind);
        }
    }
    None
}
