use std::marker::Model;

/// What a seat knows. No value of it is made.
pub struct Knowledge;

impl Model for Knowledge {
    ghost use Rattle.hwp_table_words.specs.Known.{Knowing, idle, idling};
    ghost use Rattle.hwp_core_rule.specs.hwp_kill.contracts.Slots as sets;
    ghost use Rattle.std.specs.Coded.{codes};

    ghost Value = { Knowing };

    ghost coded = { Prim.hlevel (codes, sets.the_row.coded) };

    ghost view = { λ _. idling idle };
}
