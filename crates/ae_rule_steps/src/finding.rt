//! The rule that fits a multiset.
ghost use Rattle.std.specs.Prelude.{◌≡◌, ◌<◌, IfSome, IfNone};
ghost use Rattle.std.specs.List.Sorted.{IsNonDecreasing};
ghost use Rattle.ae_multiset.specs.Rewriting.{IsReduced};
ghost use Rattle.ae_monoid.specs.Rules.{rule_at, IsRuleOf, IsFit};

use ae_core::problems::AcSymbol;
use ae_monoid::Rules;
use ae_num::forms::Name;
use ae_steps::Steps;
use std::marker::Brand;
use std::sync::ledger::{Blank, Ledger};

/// The same as `fitting`, counted by a ledger of its own.
fn fitting_counted<L: Ledger>(
    rules: &Rules,
    symbol: &AcSymbol,
    names: &[Name],
    blank: Blank,
) -> Option<usize>
    requires brand { blank.name ≡ L.name }
    requires parts { blank.parts ≡ L.parts }
    requires some { 0 < blank.parts }
    requires names { IsNonDecreasing names.now }
    ensures some { IfSome result (λ number. IsFit (rule_at rules.now number) symbol.now names.now) }
    ensures none { IfNone result (IsReduced (IsRuleOf (λ n. rule_at rules.now n) symbol.now) names.now) }
{
    let mut steps = Steps::<L>::new(blank);
    rules.find(symbol, names, &mut steps)
}

/// The number of a rule of the symbol whose left side is a part of the multiset; `None` where it is reduced. It takes no memory.
pub(crate) fn fitting(rules: &Rules, symbol: &AcSymbol, names: &[Name]) -> Option<usize>
    requires names { IsNonDecreasing names.now }
    ensures some { IfSome result (λ number. IsFit (rule_at rules.now number) symbol.now names.now) }
    ensures none { IfNone result (IsReduced (IsRuleOf (λ n. rule_at rules.now n) symbol.now) names.now) }
{
    fitting_counted::<Brand>(rules, symbol, names, Blank::new(1))
}
