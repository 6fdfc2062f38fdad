//! Names: what stands at a place of the text, and names that are numbered in their order.

ghost use Rattle.std.specs.Prelude.{◌≡◌, ◌++◌, ◌∷◌, [], Some, None, List, ℕ, true, length, IfOk, OnOk, OnErr};
ghost use Rattle.std.specs.Option.{is_some};
ghost use Rattle.std.specs.Cmp.{partial_equiv_from_equiv, partial_order_from_agreeing_total};
ghost use Rattle.std.specs.Cmp.Lexicographic.{slice_cmp};
ghost use Rattle.std.specs.Ordering.{eq_by_cmp, nat_cmp};
ghost use Rattle.std.specs.Str.{bytes_eq};
ghost use Rattle.std.proofs.Common.{refl};
ghost use Rattle.std.proofs.lemmas.Cmp.{eq_by_cmp_equiv, nat_list_cmp_total};
ghost use Rattle.ae_elab.specs.Names.{IsName};
ghost use Rattle.ae_elab.specs.Scope.{name_in, first_place};

use ae_core::lists::List;
use ae_core::words::Word;
use ae_syntax::spans::Span;
use std::alloc::{AllocError, Global};
use std::cmp::Ordering;
use std::collections::BTreeMap;
use std::marker::Model;

/// The name at a place of the text.
pub fn name_at<'a>(text: &'a [u8], place: Span) -> &'a str
    requires { IsName text.now place }
    ensures { result.now ≡ name_in text.now place }
{
    let bytes = &text[place.from as usize..place.to as usize];
    match str::from_utf8(bytes) {
        Ok(name) => name,
        Err(_error) => unreachable!(),
    }
}

/// A copy of a name.
pub fn word_of(alloc: Global, name: &str) -> Result<Word, AllocError>
    ensures { IfOk result (λ word. word ≡ name.now) }
{
    let text = String::from_str(alloc, name)?;
    Ok(Word::from_string(text))
}

// A name that is lent as a key.
#[derive(Drop)]
struct Name<'a> {
    text: &'a str,
}

impl<'a> Model for Name<'a> {
    ghost use Rattle.std.specs.Prelude.{List, ℕ};
    ghost use Rattle.std.specs.Coded.{coded_list, coded_ℕ};

    ghost Value = { List ℕ };

    ghost coded = { coded_list coded_ℕ };

    ghost view = { λ n. n.text.now };
}

impl<'a> Ord for Name<'a> {
    ghost cmp = { slice_cmp nat_cmp };

    ghost total = { nat_list_cmp_total };

    ghost matches_partial_cmp = { λ a b. refl };

    ghost matches_eq = { λ a b. refl };

    fn cmp(&self, other: &Name<'a>) -> Ordering {
        self.text.cmp(other.text)
    }
}

impl<'a> PartialOrd for Name<'a> {
    ghost partial_cmp = { λ a b. Some (slice_cmp nat_cmp a b) };

    ghost laws = { partial_order_from_agreeing_total (slice_cmp nat_cmp) nat_list_cmp_total (λ a b. refl) (λ a b. refl) };

    fn partial_cmp(&self, other: &Name<'a>) -> Option<Ordering> {
        Some(self.text.cmp(other.text))
    }
}

impl<'a> Eq for Name<'a> {
    ghost laws = { eq_by_cmp_equiv nat_list_cmp_total };
}

impl<'a> PartialEq for Name<'a> {
    ghost eq = { eq_by_cmp (slice_cmp nat_cmp) };

    ghost laws = { partial_equiv_from_equiv (eq_by_cmp_equiv nat_list_cmp_total) };

    fn eq(&self, other: &Name<'a>) -> bool {
        self.text.cmp(other.text).is_eq()
    }
}

/// Names of the text in an order of their own. A name's number is the place where it stands first, from 0.
#[derive(Drop)]
pub struct Names<'a> {
    names: List<Name<'a>>,
    places: BTreeMap<Name<'a>, usize>,
}

impl<'a> Model for Names<'a> {
    ghost use Rattle.std.specs.Prelude.{List, ℕ};
    ghost use Rattle.std.specs.Coded.{coded_list, coded_ℕ};
    ghost use Rattle.std.specs.BTreeMap.{get};
    ghost use Rattle.std.specs.Cmp.Lexicographic.{slice_cmp};
    ghost use Rattle.std.specs.Ordering.{nat_cmp};
    ghost use Rattle.ae_elab.specs.Inner.Index.{IsIndex};

    ghost Value = { List (List ℕ) };

    ghost coded = { coded_list (coded_list coded_ℕ) };

    ghost view = { λ n. n.names };

    ghost invariant = { λ n. IsIndex n.names (get (slice_cmp nat_cmp) n.places) };
}

// Drops the last name.
fn drop_last<'a>(names: &mut List<Name<'a>>)
    ensures { (kept : List (List ℕ)) (last : List ℕ) → names.old ≡ kept ++ last ∷ [] → names.new ≡ kept }
{
    match names.pop() {
        Some(_last) => {}
        None => {}
    }
}

impl<'a> Names<'a> {
    /// No names.
    pub fn new(alloc: Global) -> Names<'a>
        ensures { result ≡ [] }
    {
        Names {
            names: List::new(alloc),
            places: BTreeMap::new(alloc),
        }
    }

    /// How many names there are.
    pub fn len(&self) -> usize
        ensures { result ≡ length self.now }
    {
        self.names.len()
    }

    /// The number of a name, in time logarithmic in how many there are; `None` for another name.
    pub fn number_of(&self, name: &'a str) -> Option<usize>
        ensures { result ≡ first_place (bytes_eq name.now) self.now }
    {
        self.places.get(&Name { text: name }).copied()
    }

    // A name that isn't there, behind the others.
    fn push_new(&mut self, name: &'a str) -> Result<(), AllocError>
        requires new { first_place (bytes_eq name.now) self.old ≡ None }
        ensures names { OnOk result (self.new ≡ self.old ++ name.now ∷ []) }
        ensures err { OnErr result (self.new ≡ self.old) }
    {
        let place = self.names.len();
        self.names.push(Name { text: name })?;
        match self.places.insert(Name { text: name }, place) {
            Ok(_) => Ok(()),
            Err(failed) => {
                drop_last(&mut self.names);
                Err(AllocError::from(failed))
            }
        }
    }

    // A name that is there, behind the others once more. It keeps its number.
    fn push_again(&mut self, name: &'a str) -> Result<(), AllocError>
        requires stands { is_some (first_place (bytes_eq name.now) self.old) ≡ true }
        ensures names { OnOk result (self.new ≡ self.old ++ name.now ∷ []) }
        ensures err { OnErr result (self.new ≡ self.old) }
    {
        self.names.push(Name { text: name })?;
        Ok(())
    }

    /// A name behind the others.
    pub fn push(&mut self, name: &'a str) -> Result<(), AllocError>
        ensures names { OnOk result (self.new ≡ self.old ++ name.now ∷ []) }
        ensures err { OnErr result (self.new ≡ self.old) }
    {
        match self.number_of(name) {
            Some(_number) => self.push_again(name),
            None => self.push_new(name),
        }
    }
}
