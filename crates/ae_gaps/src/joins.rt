//! Names of AC symbols that their arguments don't come down to.
ghost use Rattle.std.specs.Prelude.{◌≡◌, ◌<◌, ◌∷◌, [], ℕ, length, slice_get, Some, Ok, Err, IfOk, OnOk};
ghost use Rattle.ae_core.specs.declared.problems.AcSymbol.{AcSymbol as AcSymbolView};
ghost use Rattle.ae_core.specs.declared.terms.Head.{Head as HeadView};
ghost use Rattle.ae_equation_turns.specs.Said.{IsWaitingSaid};
ghost use Rattle.ae_equation_turns.specs.Turned.{AreRightsOwn};
ghost use Rattle.ae_equations.specs.Queued.{waiting};
ghost use Rattle.ae_gaps.specs.Inner.Idle.{IsIdle};
ghost use Rattle.ae_gaps.specs.Inner.Openings.{IsJoined};
ghost use Rattle.ae_journal.specs.Journals.{live, counted_in};
ghost use Rattle.ae_journal.specs.declared.answers.WideAt.{WideAt};
ghost use Rattle.ae_just.specs.Steps.{Fits};
ghost use Rattle.ae_monoid.specs.Rules.{rule_at};
ghost use Rattle.ae_multiset.specs.Rewriting.{Joins};
ghost use Rattle.ae_multiset_steps.specs.Equating.{RestsOnThese};
ghost use Rattle.ae_settled.specs.Held.{HasRule};
ghost use Rattle.ae_settled.specs.Swept.{IsJoinOf};
ghost use Rattle.ae_state.specs.Complete.{IsOwnConflict};
ghost use Rattle.ae_state.specs.Names.{rules_now};
ghost use Rattle.ae_state.specs.Stepping.{IsInStep};
ghost use Rattle.ae_store.specs.Growing.{IsFront};
ghost use Rattle.ae_store.specs.Shapes.{shapes};
ghost use Rattle.ae_store.specs.Terms.{terms};
ghost use Rattle.ae_store.specs.declared.nodes.Node.{Node as NodeView};
ghost use Rattle.ae_store.specs.declared.nodes.NodeHead.TheVariants.{Of};
ghost use Rattle.ae_sweeps.specs.Given.{rep_in};
ghost use Rattle.ae_theory.specs.declared.theory.Fail.TheVariants.{Steps as OutOfSteps, Number};
ghost use Rattle.ae_turns.specs.Cleared.{AreComposed};
ghost use Rattle.ae_turns.specs.Ending.{MayBeWide};
ghost use Rattle.ae_turns.specs.Leading.{Leads};
ghost use Rattle.ae_turns.specs.Representing.{IsTaken, AreRepresentatives};
ghost use Rattle.ae_turns.specs.declared.found.Found.TheVariants.{Nothing, Advanced, Conflict};

use crate::waiting::take_up_equation;
use ae_core::copies::copy_sorts;
use ae_core::lists::List;
use ae_core::problems::AcSymbol;
use ae_core::terms::Head;
use ae_equations::Waiting;
use ae_journal::journal::Journal;
use ae_just::justs::Justs;
use ae_multiset_steps::arguments_joined;
use ae_num::forms::Name;
use ae_state::Holding;
use ae_store::nodes::{Node, NodeHead};
use ae_store::store::Store;
use ae_theory::theory::Fail;
use ae_turns::Found;
use ae_turns::laws::least_names_represent;
use std::alloc::{AllocError, Global};

/// The head that a node applies.
fn head_of(node: &Node) -> Head
    requires { (h : HeadView) × (node.now.head ≡ Of h) }
    ensures { node.now.head ≡ Of result }
{
    match node.head {
        NodeHead::Of(head) => head,
        NodeHead::Num { .. } => unreachable!(),
        NodeHead::Fresh(_) => unreachable!(),
    }
}

/// The equation of the two arguments of a name that applies an AC symbol with the name, and the step that states it, which rests on nothing.
fn join_equation(
    alloc: Global,
    justs: &mut Justs,
    store: &Store,
    name: Name,
) -> Result<Waiting, AllocError>
    requires fits { Fits store.now.signature (terms (shapes store.now.nodes)) justs.old }
    requires joined { IsJoined store.now.signature store.now.nodes name }
    ensures symbol { IfOk result (λ w. (p : NodeView) (u : AcSymbolView) (i j : ℕ) → slice_get store.now.nodes name ≡ Some p → IsJoinOf store.now.signature store.now.nodes p u i j → w.symbol ≡ u) }
    ensures left { IfOk result (λ w. (p : NodeView) (u : AcSymbolView) (i j : ℕ) → slice_get store.now.nodes name ≡ Some p → IsJoinOf store.now.signature store.now.nodes p u i j → w.left ≡ i ∷ j ∷ []) }
    ensures right { IfOk result (λ w. w.right ≡ name ∷ []) }
    ensures said { IfOk result (λ w. IsWaitingSaid store.now.signature (terms (shapes store.now.nodes)) justs.new w) }
    ensures rests { IfOk result (λ w. RestsOnThese justs.old justs.new w.step []) }
    ensures kept { IsFront justs.old justs.new }
    ensures fits { Fits store.now.signature (terms (shapes store.now.nodes)) justs.new }
{
    let _names = store.len();
    let node = store.node(name);
    let args = node.args.as_slice();
    let first = args[0];
    let second = args[1];
    let symbol = AcSymbol {
        head: head_of(node),
        sorts: copy_sorts(alloc, node.sorts.as_slice())?,
    };
    let left = List::from_slice(alloc, &[first, second])?;
    let right = List::from_slice(alloc, &[name])?;
    let step = arguments_joined(alloc, justs, store, &symbol, first, second, name)?;
    Ok(Waiting {
        symbol,
        left,
        right,
        step,
    })
}

/// Takes up the equation of a name of an AC symbol with its two arguments, where none waits. `Nothing` comes only where the representatives of the two
/// arguments, and that of the name, come down to one multiset.
///
/// `Steps` comes only where the journal was full, `Number` only with a width that it licenses. A refusal leaves what is held right.
pub(crate) fn take_up_join(
    alloc: Global,
    held: &mut Holding,
    store: &Store,
    journal: &mut Journal,
    reps: &[Name],
    name: Name,
) -> Result<Found, Fail>
    requires taken { IsTaken held.old store.now }
    requires step { IsInStep held.old (live journal.old.lines) }
    requires reps { AreRepresentatives held.old reps.now }
    requires composed { AreComposed reps.now (λ n. rule_at held.old.equations.rules n) }
    requires none_waits { waiting held.old.equations.queue ≡ [] }
    requires joined { IsJoined store.now.signature store.now.nodes name }
    ensures leads { Leads store.now held.old journal.old held.new journal.new }
    ensures taken { OnOk result (IsTaken held.new store.now) }
    ensures step { OnOk result (IsInStep held.new (live journal.new.lines)) }
    ensures steps { result ≡ Err OutOfSteps → counted_in journal.new.lines ≡ journal.new.limit }
    ensures number { (wide : WideAt) → result ≡ Err (Number wide) → MayBeWide store.now held.old journal.old.lines journal.new.lines wide }
    ensures advanced { result ≡ Ok Advanced → counted_in journal.old.lines < counted_in journal.new.lines }
    ensures conflict { (k : ℕ) → result ≡ Ok (Conflict k) → IsOwnConflict held.new k }
    ensures idle { result ≡ Ok Nothing → IsIdle held.old journal.old held.new journal.new }
    ensures joins { result ≡ Ok Nothing → (p : NodeView) (u : AcSymbolView) (i j : ℕ) → slice_get store.now.nodes name ≡ Some p → IsJoinOf store.now.signature store.now.nodes p u i j
        → Joins (HasRule (rules_now held.old) u) (rep_in reps.now i ∷ rep_in reps.now j ∷ []) (rep_in reps.now name ∷ []) }
{
    least_names_represent();
    let _names = store.len();
    let equation = join_equation(alloc, &mut held.justs, store, name)?;
    take_up_equation(alloc, held, store, journal, reps, equation)
}
