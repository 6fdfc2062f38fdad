//! A law of the rules that a rewriting state shows. This function does nothing: its contract is a theorem.
ghost use Rattle.std.specs.List.{AllByRecursion};
ghost use Rattle.ae_state.specs.Names.{IsWrittenRising, system_now};
ghost use Rattle.ae_state.specs.Right.{IsRight};
ghost use Rattle.ae_state.specs.declared.holding.Holding.{Holding};
ghost use Rattle.ae_writable.specs.Writable.{IsWritableRule};

/// Each rule that a state shows can be written where both its multisets rise, which `Holding::system` says of them: its symbol has the sorts that it takes,
/// and these are closed.
pub fn held_rules_are_writable()
    ensures { (o : Holding) → IsRight o → AllByRecursion IsWrittenRising (system_now o).rules → AllByRecursion (IsWritableRule o.signature) (system_now o).rules }
{}
