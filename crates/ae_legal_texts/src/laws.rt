//! Laws of the texts of legal values. These functions do nothing: each one's contract is a theorem.
ghost use Rattle.std.specs.Prelude.{◌≡◌, ℕ, true, List, [], ◌∷◌};
ghost use mathlib.Core.Logic.{inl};
ghost use Rattle.std.specs.List.{flat_map, list_all};
ghost use Rattle.ae_base.specs.Options.{known};
ghost use Rattle.ae_codes.specs.Codes.{got};
ghost use Rattle.ae_core.specs.Signatures.{IsLawful};
ghost use Rattle.ae_core.specs.Sorts.{is_closed_sort, sort_in, trigger_ok, formula_in, formula_ok};
ghost use Rattle.ae_rules.specs.Clauses.{yes_of, no_of};
ghost use Rattle.ae_rules.specs.Derivations.{clause_ok, Derives};
ghost use Rattle.ae_core.specs.declared.problems.Problem.{Problem};
ghost use Rattle.ae_core.specs.declared.problems.Signature.{Signature};
ghost use Rattle.ae_core.specs.declared.terms.Sort.{Sort};
ghost use Rattle.ae_core.specs.declared.terms.Term.{Term};
ghost use Rattle.ae_core.specs.declared.formulas.Formula.{Formula};
ghost use Rattle.ae_core.specs.declared.formulas.Lit.{Lit};
ghost use Rattle.ae_core.specs.declared.proofs.EqLine.{EqLine};
ghost use Rattle.ae_core.specs.declared.proofs.Ending.{Ending};
ghost use Rattle.ae_core.specs.declared.proofs.Block.{Block as BlockOf};
ghost use Rattle.ae_core.specs.declared.proofs.ClauseLine.{ClauseLine};
ghost use Rattle.ae_core.specs.declared.proofs.ClauseLine.TheVariants.{Block};
ghost use Rattle.ae_core.specs.declared.proofs.Proof.{Proof};
ghost use Rattle.ae_prooftext.specs.declared.proofs.ProofText.{ProofText};
ghost use Rattle.ae_prooftext.specs.Clauses.{literal};
ghost use Rattle.ae_prooftext.specs.Grammar.{is_real, sort_code, term_code, formula_code, clause_code, block_code, proof_code};
ghost use Rattle.ae_prooftext.specs.Proofs.{derived_line, line_code};
ghost use Rattle.ae_prooftext.specs.Rules.{ending_code};
ghost use Rattle.ae_prooftext.specs.Texts.{proof_text};
ghost use Rattle.ae_legal_texts.specs.Numbers.{AreWithin, sort_numbers, term_numbers, formula_numbers, literal_numbers, derived_numbers, ending_numbers, block_numbers, line_numbers};
ghost use Rattle.ae_legal_texts.specs.Writable.{no_negations, derived_sorted, line_sorted, no_negations_in, IsWithinLimits, IsWritable, HasText};

/// Each closed sort over a lawful signature has a text, with each byte that closes a part.
#[tactic(auto, using(crate::proofs::Legal::sorts_legal))]
pub fn sorts_have_texts()
    ensures closed { (sig : Signature) → IsLawful sig → (s : Sort) → is_closed_sort sig s ≡ true → AreWithin (sort_numbers s) → HasText (sort_code sig) s }
{}

/// Each term that is well sorted under variables of the sorts `env` has a text, and so has a predicate's application that stands in a trigger.
#[tactic(auto, using(crate::proofs::Legal::terms_legal, crate::proofs::Legal::trigger_terms_legal))]
pub fn terms_have_texts()
    ensures sorted { (sig : Signature) → IsLawful sig → (env : List Sort) (t : Term) → known (sort_in sig (is_closed_sort sig) env t) ≡ true → AreWithin (term_numbers t) → HasText (term_code sig env) t }
    ensures triggers { (sig : Signature) → IsLawful sig → (env : List Sort) (t : Term) → trigger_ok sig (is_closed_sort sig) env t ≡ true → AreWithin (term_numbers t) → HasText (term_code sig env) t }
{}

/// Each formula that is well sorted under variables of the sorts `env` has a text.
#[tactic(auto, using(crate::proofs::Legal::formulas_legal))]
pub fn formulas_have_texts()
    ensures sorted { (sig : Signature) → IsLawful sig → (env : List Sort) (f : Formula) → formula_in sig (is_closed_sort sig) env f ≡ true → AreWithin (formula_numbers f) → HasText (formula_code sig env) f }
{}

/// Literals and clauses whose formulas are closed and well sorted, and no negations, have texts. The literals that say that a formula is true, or
/// false, are such.
#[tactic(auto, using(crate::proofs::Legal::literals_legal, crate::proofs::Legal::clauses_legal, crate::proofs::Signs::said_direct))]
pub fn literals_have_texts()
    ensures literals { (sig : Signature) → IsLawful sig → (x : Lit) → formula_ok sig x.formula ≡ true → no_negations (x ∷ []) ≡ true → AreWithin (literal_numbers x) → HasText (literal sig (is_real sig)) x }
    ensures clauses { (sig : Signature) → IsLawful sig → (c : List Lit) → clause_ok sig c ≡ true → no_negations c ≡ true → AreWithin (flat_map literal_numbers c) → (clause_code sig).Fits c }
    ensures of_formulas { (f : Formula) → no_negations (yes_of f ∷ no_of f ∷ []) ≡ true }
{}

/// Derived lines, endings, blocks and clause lines have texts where what they state is closed and well sorted, and their literals are no negations.
#[tactic(auto, using(crate::proofs::Legal::derived_lines_legal, crate::proofs::Rules::ending_has, crate::proofs::Legal::blocks_legal, crate::proofs::Legal::clause_lines_legal))]
pub fn lines_have_texts()
    ensures derived { (sig : Signature) → IsLawful sig → (l : EqLine) → derived_sorted sig l ≡ true → AreWithin (derived_numbers l) → (derived_line sig (is_real sig)).Fits l }
    ensures endings { (e : Ending) → AreWithin (ending_numbers e) → ending_code.Fits e }
    ensures blocks { (sig : Signature) → IsLawful sig → (b : BlockOf) → line_sorted sig (Block b) ≡ true → no_negations_in (Block b) ≡ true → AreWithin (block_numbers b) → (block_code sig).Fits b }
    ensures clause_lines { (sig : Signature) → IsLawful sig → (l : ClauseLine) → line_sorted sig l ≡ true → no_negations_in l ≡ true → AreWithin (line_numbers l) → (line_code sig (is_real sig)).Fits (inl l) }
{}

/// Each proof text that is fit to be written has a text, of either version, and what is written is read back.
#[tactic(auto, using(crate::proofs::Legal::proofs_legal, crate::proofs::Legal::proofs_read_back))]
pub fn proofs_have_texts()
    ensures written { (sig : Signature) → IsLawful sig → (p : ProofText) → IsWritable sig p → (proof_code sig).Fits p }
    ensures read_back { (sig : Signature) → IsLawful sig → (p : ProofText) → IsWritable sig p → (proof_code sig).read (proof_text sig p) ≡ got p [] }
{}

/// What the lines of a derivation state is closed and well sorted. So a derivation over a lawful signature has a text where its numbers are
/// within their limits and its literals are no negations.
#[tactic(auto, using(crate::proofs::Allowed::derivation_sorted, crate::proofs::Legal::derivations_legal))]
pub fn derivations_have_texts()
    ensures sorted { (p : Problem) (g : ℕ) (proof : Proof) → Derives p g proof → list_all (line_sorted p.signature) proof.lines ≡ true }
    ensures written { (p : Problem) (g : ℕ) (t : ProofText) → IsLawful p.signature → Derives p g t.proof → IsWithinLimits t → (proof_code p.signature).Fits t }
{}
