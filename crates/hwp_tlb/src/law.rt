ghost use Rattle.hwp_tlb.specs.Law.{NoneHandled};

/// Whatever the rule of the table allows, no entry of a translation cache names a handled frame. The rule holds between any two
/// atomic steps of any threads. Proof only: a call tells its clause.
pub fn no_entry_names_a_handled_frame()
    ensures none_handled { NoneHandled }
{}
