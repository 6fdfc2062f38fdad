//! What holds of the texts that are read here, as clauses.
ghost use Rattle.std.specs.Prelude.{◌≡◌, ◌++◌, ◌∷◌, [], List, ℕ, decimal};
ghost use Rattle.ae_codes.specs.Closers.{Close, sizes};
ghost use Rattle.ae_codes.specs.Codes.{Exact};
ghost use Rattle.ae_codes.specs.Integers.{IntegerEnd, integer_text};
ghost use Rattle.ae_codes.specs.Names.{WordEnd};
ghost use Rattle.ae_codes.specs.Numbers.{Closed, number};
ghost use Rattle.ae_readers.specs.Names.{names_at, SomeName};
ghost use Rattle.ae_readers.specs.Readers.{integer_at};
ghost use Rattle.ae_readers.specs.declared.closing.Closing.{Closing};
ghost use Rattle.ae_readers.specs.declared.names.Form.{Form};

/// Numbers of 64 bits and whole numbers of 127 bits, each with the byte that closes it, are their decimal digits, behind `-` below 0; two of them have two texts, and
/// neither begins the other.
#[tactic(auto, using(crate::proofs::TextLaws::sizes_exact, crate::proofs::TextLaws::sizes_spelled, crate::proofs::TextLaws::integers_exact, crate::proofs::TextLaws::integers_spelled))]
pub fn number_texts()
    ensures sizes { (k : Close) → Exact (number (sizes k)) }
    ensures sizes_spelled { (k : Close) (v : Closed) → (number (sizes k)).text v ≡ decimal v.0 ++ v.1 ∷ [] }
    ensures integers { (k : Close) → Exact (integer_at k) }
    ensures integers_spelled { (k : Close) (v : IntegerEnd) → (integer_at k).text v ≡ integer_text v.0 ++ v.1 ∷ [] }
{}

/// The same of names: a name's text is the word of the table and the byte that closes it.
#[tactic(auto, using(crate::proofs::TextLaws::names_exact, crate::proofs::TextLaws::names_spelled))]
pub fn name_texts()
    ensures exact { (f : Form) (k : Closing) (table : List (List ℕ)) (some : SomeName f k table) → Exact (names_at f k table some) }
    ensures spelled { (f : Form) (k : Closing) (table : List (List ℕ)) (some : SomeName f k table) (v : WordEnd) → (names_at f k table some).text v ≡ v.0 ++ v.1 ∷ [] }
{}
