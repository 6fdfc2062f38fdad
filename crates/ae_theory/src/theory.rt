//! The traits.
ghost use Rattle.std.specs.Prelude.{◌≡◌, ◌↔◌, ◌≤◌, ◌<◌, ◌+◌, ◌∷◌, ◌++◌, [], ℕ, Bool, true, List, length, IsTrue, IfOk, OnOk, OnErr, Ok, Err};
ghost use Rattle.std.specs.List.{AllByRecursion, Contains};
ghost use Rattle.ae_rules.specs.Derivations.{AreContradictory, IsContradictory, clause_ok};
ghost use Rattle.ae_journal.specs.declared.lines.Line.{Line};
ghost use Rattle.ae_journal.specs.Journals.{live, counted_in};
ghost use Rattle.ae_store.specs.Stores.{Stored};
ghost use Rattle.ae_journal.specs.Standing.{Setting};
ghost use Rattle.ae_journal.specs.Licences.{IsLicensed};
ghost use Rattle.ae_journal.specs.declared.answers.WideAt.{WideAt};
ghost use Rattle.ae_theory.specs.declared.theory.Outcome.TheVariants.{Complete, Conflict};
ghost use Rattle.ae_theory.specs.declared.theory.Fail.TheVariants.{Steps as OutOfSteps, Number};
ghost use Rattle.ae_theory.specs.Tagged.{Tagged};
ghost use Rattle.ae_rules.specs.Built.{IsBuiltEquation};
ghost use Rattle.ae_theory.specs.Names.{AreNamed, Extends, HaveOneSort, IsNamedBy, IsOrdered, terms_in};
ghost use Rattle.ae_theory.specs.Noting.{HasNoted, IsBlockOf, literals, MayAll, NotesLegal, is_silent};

use ae_core::formulas::Lit;
use ae_core::lists::List;
use ae_core::proofs::{Block, Deriv};
use ae_journal::answers::WideAt;
use ae_journal::journal::Journal;
use ae_num::forms::Name;
use ae_steps::Steps;
use ae_store::store::Store;
use std::alloc::{AllocError, Global};
use std::sync::ledger::Ledger;

/// What saturation finds.
#[derive(Clone, Copy, Debug, PartialEq, Eq)]
pub enum Outcome {
    /// Nothing is left to do.
    Complete,
    /// The assumed literals can't hold together; the number is for `explain`.
    Conflict(usize),
}

/// Why a search has no answer.
#[derive(Debug, Drop, thiserror::Error)]
pub enum Fail {
    /// The journal holds as many counted lines as its limit allows, and one more was to be noted.
    #[error("the limit on counted lines is reached")]
    Steps,
    /// A product or a sum of this step leaves the limits.
    #[error("a number leaves the limits")]
    Number(WideAt),
    /// There was no memory.
    #[error("no memory")]
    Memory(AllocError),
}

impl From<AllocError> for Fail {
    ghost use Rattle.std.specs.Prelude.{◌≡◌};
    ghost use Rattle.ae_theory.specs.declared.theory.Fail.TheVariants.{Memory};

    ghost from_gives = { λ e r. r ≡ Memory e };

    fn from(failed: AllocError) -> Fail {
        Fail::Memory(failed)
    }
}

/// A block that says that literals can't hold together, and the tags under which they were assumed.
#[derive(Drop)]
pub struct Explained {
    pub block: Block,
    pub tags: List<usize>,
}

/// A derivation, and the tags under which its hypotheses were assumed.
#[derive(Drop)]
pub struct Derived {
    pub deriv: Deriv,
    pub tags: List<usize>,
}

/// Which names are the same.
pub trait Equalities {
    /// Each name that the object holds is right over the store's terms.
    ghost fits: { Self → Stored → Type 0 };

    /// The two names are the same.
    ghost alike: { Self → ℕ → ℕ → Bool };

    /// Whether two names are the same.
    fn same(&self, left: Name, right: Name) -> bool
        ensures { result ≡ alike self.now left right };

    /// The names that are the same as this one, rising.
    fn equals(&self, alloc: Global, store: &Store, name: Name) -> Result<List<Name>, AllocError>
        requires fits { fits self.now store.now }
        requires within { name < length store.now.nodes }
        ensures all { IfOk result (λ ns. (n : ℕ) → n < length store.now.nodes → (Contains ns n ↔ IsTrue (alike self.now name n))) }
        ensures rising { IfOk result IsOrdered };

    ghost reflexive: { (o : Self) (n : ℕ) → IsTrue (alike o n n) };

    ghost symmetric: { (o : Self) (m n : ℕ) → IsTrue (alike o m n) → IsTrue (alike o n m) };

    ghost transitive: { (o : Self) (l m n : ℕ) → IsTrue (alike o l m) → IsTrue (alike o m n) → IsTrue (alike o l n) };

    /// Names that are the same are of one sort.
    ghost sorted: { (o : Self) (s : Stored) → fits o s → (m n : ℕ) → IsTrue (alike o m n) → HaveOneSort s m n };

    /// It fits a store with more terms.
    ghost fits_more: { (o : Self) (a b : Stored) → Extends a b → fits o a → fits o b };
}

/// A theory: it takes literals, finds out whether they can hold together, and goes back to what it was.
pub trait Theory: Equalities {
    type Mark;

    /// The literals assumed, each with its tag, in their order.
    ghost assumed: { Self → List Tagged };

    /// The mark fits the object, and stands for the state that the object had as the third one.
    ghost fits_mark: { Self → Self.Mark → Self → Type 0 };

    /// The conflict is the object's.
    ghost own_conflict: { Self → ℕ → Type 0 };

    /// Nothing is left to do for the names of the store.
    ghost is_complete: { Self → Stored → Type 0 };

    /// The lines that stand in a journal are in step with the object.
    ghost in_step: { Self → List Line → Type 0 };

    /// For the names of the store at most so many more lines are noted. Nothing is promised where that holds for no number.
    ghost may_note: { Self → Stored → ℕ → Type 0 };

    /// Assumes a literal.
    fn assume(
        &mut self,
        alloc: Global,
        store: &Store,
        lit: &Lit,
        tag: usize,
    ) -> Result<(), AllocError>
        requires fits { Self.fits self.old store.now }
        requires named { AreNamed store.now lit.now.formula }
        ensures ok { OnOk result (assumed self.new ≡ assumed self.old ++ record { lit = lit.now; tag = tag } ∷ []) }
        ensures err { OnErr result (assumed self.new ≡ assumed self.old) }
        ensures fits { Self.fits self.new store.now }
        ensures marks { (m : Self.Mark) (then : Self) → fits_mark self.old m then → fits_mark self.new m then }
        ensures conflicts { (k : ℕ) → own_conflict self.old k → own_conflict self.new k }
        ensures step { (js : List Line) → in_step self.old js → in_step self.new js }
        ensures budget { (n : ℕ) → may_note self.old store.now n → may_note self.new store.now n };

    /// Takes up what is pending until nothing is left, or the assumed literals turn out to be contradictory.
    fn saturate(
        &mut self,
        alloc: Global,
        store: &Store,
        journal: &mut Journal,
    ) -> Result<Outcome, Fail>
        requires fits { Self.fits self.old store.now }
        requires step { in_step self.old (live journal.old.lines) }
        ensures assumed { assumed self.new ≡ assumed self.old }
        ensures complete { result ≡ Ok Complete → is_complete self.new store.now }
        ensures conflict { (k : ℕ) → result ≡ Ok (Conflict k) → own_conflict self.new k × AreContradictory store.now.signature (literals (assumed self.new)) }
        ensures steps { result ≡ Err OutOfSteps → counted_in journal.new.lines ≡ journal.new.limit }
        ensures noted { HasNoted journal.old journal.new }
        ensures legal { (x : Setting) (bound : ℕ) → IsNamedBy x store.now journal.old.lines → MayAll x (literals (assumed self.old)) journal.old.lines →
            NotesLegal x bound journal.old.lines journal.new.lines }
        ensures number { (wide : WideAt) → result ≡ Err (Number wide) → (x : Setting) → IsNamedBy x store.now journal.old.lines →
            MayAll x (literals (assumed self.old)) journal.old.lines → IsLicensed x journal.new.lines wide }
        ensures step { OnOk result (in_step self.new (live journal.new.lines)) }
        ensures fits { Self.fits self.new store.now }
        ensures marks { (m : Self.Mark) (then : Self) → fits_mark self.old m then → fits_mark self.new m then }
        ensures conflicts { (k : ℕ) → own_conflict self.old k → own_conflict self.new k }
        // It notes no more lines than it may.
        ensures budget { (n : ℕ) → may_note self.old store.now n → counted_in journal.new.lines ≤ counted_in journal.old.lines + n }
        // Without a refusal each line that it notes is one less of those that it may note.
        ensures budget_left { OnOk result ((n : ℕ) → may_note self.old store.now n → (m : ℕ) × may_note self.new store.now m × (counted_in journal.new.lines + m ≤ counted_in journal.old.lines + n)) }
        // Where it asks for one line more it has noted fewer than it may.
        ensures budget_steps { result ≡ Err OutOfSteps → (n : ℕ) → may_note self.old store.now n → counted_in journal.new.lines < counted_in journal.old.lines + n };

    /// A mark of the present state. It takes no memory.
    fn mark<L: Ledger>(&self, steps: &mut Steps<L>) -> Self::Mark
        ensures mark { fits_mark self.now result self.now }
        ensures steps { steps.new ≤ steps.old + 16 };

    /// Goes to the state of a mark. It takes no memory.
    fn restore<L: Ledger>(&mut self, mark: &Self::Mark, steps: &mut Steps<L>)
        requires mark { (then : Self) × fits_mark self.old mark.now then }
        ensures assumed { (then : Self) → fits_mark self.old mark.now then → assumed self.new ≡ assumed then }
        ensures complete { (then : Self) → fits_mark self.old mark.now then → (s : Stored) → is_complete then s → is_complete self.new s }
        ensures conflicts { (then : Self) → fits_mark self.old mark.now then → (k : ℕ) → own_conflict then k → own_conflict self.new k }
        ensures step { (then : Self) → fits_mark self.old mark.now then → (js : List Line) → in_step then js → in_step self.new js }
        ensures fits { (s : Stored) → Self.fits self.old s → Self.fits self.new s }
        ensures marks { (m : Self.Mark) (then : Self) → fits_mark self.old m then → fits_mark self.new m then }
        ensures steps { steps.new ≤ steps.old + 16 };

    /// Why a conflict's literals can't hold together.
    fn explain(
        &self,
        alloc: Global,
        store: &Store,
        conflict: usize,
    ) -> Result<Explained, AllocError>
        requires fits { Self.fits self.now store.now }
        requires own { own_conflict self.now conflict }
        ensures contradictory { IfOk result (λ e. IsContradictory store.now.signature e.block) }
        ensures sorted { IfOk result (λ e. clause_ok store.now.signature e.block.deriv.hyps ≡ true) }
        ensures tags { IfOk result (λ e. IsBlockOf (assumed self.now) e.block.deriv.hyps e.tags) }
        ensures built { IfOk result (λ e. AllByRecursion (IsBuiltEquation store.now.signature (terms_in store.now)) e.block.deriv.lines) };

    /// A line that isn't one of a theory changes nothing.
    ghost silent: { (o : Self) (js : List Line) (j : Line) → is_silent j ≡ true → in_step o js → in_step o (js ++ j ∷ []) };
}
