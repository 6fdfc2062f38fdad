//! A name is put for another of its sort.
ghost use Rattle.std.specs.Prelude.{◌≡◌, ◌≢◌, ◌<◌, ℕ, [], ◌∷◌, Some, OnOk, OnErr};
ghost use Rattle.std.specs.List.{AllByRecursion};
ghost use Rattle.ae_core.specs.declared.terms.Sort.{Sort};
ghost use Rattle.ae_pmap.specs.Forest.{present};
ghost use Rattle.ae_pmap.specs.Pairs.{found};
ghost use Rattle.ae_store.specs.Growing.{IsFront};
ghost use Rattle.ae_store.specs.Shapes.{shapes};
ghost use Rattle.ae_store.specs.Terms.{terms};
ghost use Rattle.ae_just.specs.Steps.{Fits};
ghost use Rattle.ae_settled.specs.Valued.{AreValues, IsOwnLeaf};
ghost use Rattle.ae_state_steps.specs.ValueSteps.{StatesEqual};
ghost use Rattle.ae_value_changes.specs.Put.{IsLeafPut};
ghost use Rattle.ae_value_table.specs.Table.{held, just_at, values as values_of};
ghost use Rattle.ae_value_table.specs.Versions.{IsAs, Lasts};
ghost use Rattle.ae_value_fitting.specs.Fitting.{system_in, held_by, ArePatterns, AreSaid};
ghost use Rattle.ae_value_fitting.specs.Sources.{SaysValue, AreFromValues};
ghost use Rattle.ae_values.specs.Inner.Before.{IsFollowing, IsFollower};
ghost use Rattle.ae_values.specs.Inner.Leading.{IsLed, AreLed, IsLeafPuttable};

use crate::occurrences::{Follower, followers_of};
use ae_just::justs::Justs;
use ae_num::forms::Name;
use ae_steps::Steps;
use ae_store::store::Store;
use ae_value_changes::laws::values_stay_values_when_a_name_is_put;
use ae_value_steps::state_chained;
use ae_value_table::Values;
use std::alloc::{AllocError, Global};
use std::marker::Brand;
use std::sync::ledger::{Blank, Ledger};

/// Gives a name that has another as its leaf that one's leaf, and adds the step that says so.
fn lead(
    values: &mut Values,
    store: &Store,
    justs: &mut Justs,
    follower: Follower,
    leaf: Name,
    just: usize,
) -> Result<(), AllocError>
    requires fits { Fits store.now.signature (terms (shapes store.now.nodes)) justs.old }
    requires equal { (name : ℕ) × StatesEqual justs.old follower.step follower.name name × StatesEqual justs.old just name leaf }
    ensures led { OnOk result (IsLed justs.old justs.new leaf (follower.step ∷ just ∷ []) values.new follower.name) }
    ensures kept { OnOk result ((n : ℕ) → n ≢ follower.name → (found (present values.new.leaves) n ≡ found (present values.old.leaves) n) × (just_at values.new n ≡ just_at values.old n)) }
    ensures others { values.new ≡ record values.old { leaves = values.new.leaves; justs = values.new.justs } }
    ensures front { IsFront justs.old justs.new }
    ensures fits { Fits store.now.signature (terms (shapes store.now.nodes)) justs.new }
    ensures lasts { Lasts values.old values.new }
{
    let step = state_chained(store, justs, follower.name, leaf, follower.step, just)?;
    values.put_leaf(follower.name, leaf)?;
    values.put_just(follower.name, step)
}

/// The same for all names that have the other as their leaf.
fn lead_all(
    values: &mut Values,
    store: &Store,
    justs: &mut Justs,
    followers: &[Follower],
    leaf: Name,
    just: usize,
) -> Result<(), AllocError>
    requires fits { Fits store.now.signature (terms (shapes store.now.nodes)) justs.old }
    requires equal { (name : ℕ) × AllByRecursion (λ follower. StatesEqual justs.old follower.step follower.name name) followers.now × StatesEqual justs.old just name leaf }
    requires says { AllByRecursion (λ follower. SaysValue values.old follower.step) followers.now }
    ensures led { OnOk result (AreLed justs.old justs.new leaf (just ∷ []) values.old values.new followers.now) }
    ensures others { values.new ≡ record values.old { leaves = values.new.leaves; justs = values.new.justs } }
    ensures front { IsFront justs.old justs.new }
    ensures fits { Fits store.now.signature (terms (shapes store.now.nodes)) justs.new }
    ensures lasts { Lasts values.old values.new }
{
    for follower in followers {
        lead(values, store, justs, *follower, leaf, just)?;
    }
    Ok(())
}

/// Puts a name for another, and adds the steps of the names that had that one as their leaf. A refusal leaves some of it done.
fn put_all(
    values: &mut Values,
    store: &Store,
    justs: &mut Justs,
    followers: &[Follower],
    name: Name,
    leaf: Name,
    just: usize,
) -> Result<(), AllocError>
    requires puttable { IsLeafPuttable store.now justs.old values.old name leaf just }
    requires each { AllByRecursion (IsFollowing values.old name) followers.now }
    requires all { (n k : ℕ) → n < values.old.taken → found (present values.old.leaves) n ≡ Some name → just_at values.old n ≡ Some k → IsFollower followers.now n }
    ensures put { OnOk result ((s : Sort) → IsOwnLeaf store.now.signature (system_in (terms (shapes store.now.nodes)) values.old) s name
        → IsLeafPut (held_by store.now.signature store.now.nodes values.old) s name leaf (values_of values.new)) }
    ensures said { OnOk result (AreSaid store.now.signature (terms (shapes store.now.nodes)) justs.new values.new) }
    ensures sources { OnOk result (AreFromValues justs.old justs.new values.old values.new (just ∷ [])) }
    ensures names { OnOk result (held values.new ≡ held values.old) }
    ensures others { values.new ≡ record values.old { rows = values.new.rows; leaves = values.new.leaves; justs = values.new.justs } }
    ensures front { IsFront justs.old justs.new }
    ensures fits { Fits store.now.signature (terms (shapes store.now.nodes)) justs.new }
    ensures lasts { Lasts values.old values.new }
{
    lead_all(values, store, justs, followers, leaf, just)?;
    values.put_leaf(name, leaf)?;
    values.put_just(name, just)?;
    Ok(())
}

/// The same, counted by a ledger of its own: a refusal goes back to a version that was shared first.
fn put_counted<L: Ledger>(
    values: &mut Values,
    store: &Store,
    justs: &mut Justs,
    followers: &[Follower],
    name: Name,
    leaf: Name,
    just: usize,
    blank: Blank,
) -> Result<(), AllocError>
    requires brand { blank.name ≡ L.name }
    requires parts { blank.parts ≡ L.parts }
    requires some { 0 < blank.parts }
    requires puttable { IsLeafPuttable store.now justs.old values.old name leaf just }
    requires each { AllByRecursion (IsFollowing values.old name) followers.now }
    requires all { (n k : ℕ) → n < values.old.taken → found (present values.old.leaves) n ≡ Some name → just_at values.old n ≡ Some k → IsFollower followers.now n }
    ensures put { OnOk result ((s : Sort) → IsOwnLeaf store.now.signature (system_in (terms (shapes store.now.nodes)) values.old) s name
        → IsLeafPut (held_by store.now.signature store.now.nodes values.old) s name leaf (values_of values.new)) }
    ensures said { OnOk result (AreSaid store.now.signature (terms (shapes store.now.nodes)) justs.new values.new) }
    ensures sources { OnOk result (AreFromValues justs.old justs.new values.old values.new (just ∷ [])) }
    ensures names { OnOk result (held values.new ≡ held values.old) }
    ensures others { values.new ≡ record values.old { rows = values.new.rows; leaves = values.new.leaves; justs = values.new.justs } }
    ensures err { OnErr result (IsAs values.new values.old) }
    ensures front { IsFront justs.old justs.new }
    ensures fits { Fits store.now.signature (terms (shapes store.now.nodes)) justs.new }
    ensures lasts { Lasts values.old values.new }
{
    let mut steps = Steps::<L>::new(blank);
    let shared = values.share(&mut steps);
    match put_all(values, store, justs, followers, name, leaf, just) {
        Ok(()) => Ok(()),
        Err(refused) => {
            values.back(&shared, &mut steps);
            Err(refused)
        }
    }
}

/// Puts a name for another of its sort in the values of all names, where a step equates the two and both are their own leaves. Each name whose leaf
/// changes gets a step that says so and rests on the step of before and on this one. Refused memory leaves the values as they were.
pub fn put_leaf(
    alloc: Global,
    values: &mut Values,
    store: &Store,
    justs: &mut Justs,
    name: Name,
    leaf: Name,
    just: usize,
) -> Result<(), AllocError>
    requires fits { Fits store.now.signature (terms (shapes store.now.nodes)) justs.old }
    requires patterns { ArePatterns store.now.signature (terms (shapes store.now.nodes)) (held values.old) }
    requires values { AreValues store.now.signature (system_in (terms (shapes store.now.nodes)) values.old) }
    requires said { AreSaid store.now.signature (terms (shapes store.now.nodes)) justs.old values.old }
    requires own { (s : Sort) × IsOwnLeaf store.now.signature (system_in (terms (shapes store.now.nodes)) values.old) s name × IsOwnLeaf store.now.signature (system_in (terms (shapes store.now.nodes)) values.old) s leaf }
    requires differ { leaf ≢ name }
    requires just { StatesEqual justs.old just name leaf }
    ensures put { OnOk result ((s : Sort) → IsOwnLeaf store.now.signature (system_in (terms (shapes store.now.nodes)) values.old) s name
        → IsLeafPut (held_by store.now.signature store.now.nodes values.old) s name leaf (values_of values.new)) }
    ensures err { OnErr result (IsAs values.new values.old) }
    ensures values { AreValues store.now.signature (system_in (terms (shapes store.now.nodes)) values.new) }
    ensures said { AreSaid store.now.signature (terms (shapes store.now.nodes)) justs.new values.new }
    ensures sources { AreFromValues justs.old justs.new values.old values.new (just ∷ []) }
    ensures names { held values.new ≡ held values.old }
    ensures others { values.new ≡ record values.old { rows = values.new.rows; leaves = values.new.leaves; justs = values.new.justs } }
    ensures front { IsFront justs.old justs.new }
    ensures fits { Fits store.now.signature (terms (shapes store.now.nodes)) justs.new }
    ensures lasts { Lasts values.old values.new }
{
    values_stay_values_when_a_name_is_put();
    let _names = store.len();
    let followers = followers_of(alloc, values, name)?;
    put_counted::<Brand>(
        values,
        store,
        justs,
        followers.as_slice(),
        name,
        leaf,
        just,
        Blank::new(1),
    )
}
