//! The classes of a table: the names that stand at one number, as sets that share what they have in common.
ghost use Rattle.std.specs.Prelude.{◌≡◌, ◌<◌, [], None, Some, OnOk, OnErr};
ghost use Rattle.ae_pmap.specs.Pairs.{found, put_in, with_at};
ghost use Rattle.ae_pmap.specs.Forest.{present, map_at, IsRoot, Lasts, StandsFor};
ghost use Rattle.ae_free.specs.Classes as spec;
ghost use Rattle.ae_free.specs.Classes.{IsClassOf, AreClasses};

use ae_pmap::{Pmap, Version, Walk};
use ae_steps::Steps;
use std::alloc::AllocError;
use std::sync::ledger::{Blank, Ledger};

/// The names that stand at a number: the version of their set, and the two least of them.
#[derive(Clone, Copy)]
pub struct Class {
    pub members: Version,
    pub least: Option<usize>,
    pub second: Option<usize>,
}

/// The least member of a class but for this name. It takes no memory.
pub fn least_other(class: &Class, name: usize) -> Option<usize>
    ensures { result ≡ spec.least_other class.now name }
{
    match class.least {
        None => None,
        Some(least) => {
            if least == name {
                class.second
            } else {
                Some(least)
            }
        }
    }
}

/// The next key of a walk.
fn next_key(walk: &mut Walk<'_, ()>) -> Option<usize>
    ensures key { result ≡ spec.first_key walk.old }
    ensures rest { walk.new ≡ spec.rest walk.old }
{
    match walk.next() {
        None => None,
        Some((key, _)) => Some(key),
    }
}

/// The class of the present set.
fn class_of<L: Ledger>(members: &Pmap<()>, steps: &mut Steps<L>) -> Class
    ensures { IsClassOf members.now (present members.now) result }
{
    let mut walk = members.walk();
    let least = next_key(&mut walk);
    let second = next_key(&mut walk);
    Class {
        members: members.share(steps),
        least,
        second,
    }
}

/// The version of the set of a number; where the number has no class, the version that is given.
fn set_of(classes: &Pmap<Class>, number: usize, none: Version) -> Version
    ensures { result ≡ spec.set_of (found (present classes.now) number) none }
{
    match classes.get(number) {
        None => none,
        Some(class) => class.members,
    }
}

/// Takes a name out of the class of the number at which it stands.
fn leave<L: Ledger>(
    classes: &mut Pmap<Class>,
    members: &mut Pmap<()>,
    numbers: &Pmap<usize>,
    name: usize,
    none: Version,
    steps: &mut Steps<L>,
) -> Result<(), AllocError>
    requires fits { AreClasses members.old (found (present classes.old)) (found (present numbers.now)) }
    requires none { StandsFor members.old none [] }
    ensures fits { OnOk result (AreClasses members.new (found (present classes.new)) (with_at (found (present numbers.now)) name None)) }
    ensures sets_last { Lasts members.old members.new }
    ensures classes_last { Lasts classes.old classes.new }
{
    let number = match numbers.get(name) {
        None => return Ok(()),
        Some(number) => *number,
    };
    members.back(set_of(classes, number, none), steps);
    members.remove(name)?;
    let class = class_of(members, steps);
    classes.insert(number, class)
}

/// Puts a name that stands nowhere into the class of a number.
fn join<L: Ledger>(
    classes: &mut Pmap<Class>,
    members: &mut Pmap<()>,
    numbers: &Pmap<usize>,
    name: usize,
    number: usize,
    none: Version,
    steps: &mut Steps<L>,
) -> Result<(), AllocError>
    requires fits { AreClasses members.old (found (present classes.old)) (with_at (found (present numbers.now)) name None) }
    requires none { StandsFor members.old none [] }
    ensures fits { OnOk result (AreClasses members.new (found (present classes.new)) (with_at (found (present numbers.now)) name (Some number))) }
    ensures sets_last { Lasts members.old members.new }
    ensures classes_last { Lasts classes.old classes.new }
{
    members.back(set_of(classes, number, none), steps);
    members.insert(name, ())?;
    let class = class_of(members, steps);
    classes.insert(number, class)
}

/// Moves a name to a number.
fn move_to<L: Ledger>(
    numbers: &mut Pmap<usize>,
    classes: &mut Pmap<Class>,
    members: &mut Pmap<()>,
    name: usize,
    number: usize,
    none: Version,
    steps: &mut Steps<L>,
) -> Result<(), AllocError>
    requires fits { AreClasses members.old (found (present classes.old)) (found (present numbers.old)) }
    requires none { StandsFor members.old none [] }
    ensures ok { OnOk result (present numbers.new ≡ put_in name number (present numbers.old)) }
    ensures err { OnErr result (present numbers.new ≡ present numbers.old) }
    ensures fits { OnOk result (AreClasses members.new (found (present classes.new)) (found (present numbers.new))) }
    ensures sets_last { Lasts members.old members.new }
    ensures classes_last { Lasts classes.old classes.new }
    ensures numbers_last { Lasts numbers.old numbers.new }
{
    leave(classes, members, numbers, name, none, steps)?;
    join(classes, members, numbers, name, number, none, steps)?;
    numbers.insert(name, number)
}

/// Moves a name to a number. Refused memory leaves the maps as they were.
pub fn put<L: Ledger>(
    numbers: &mut Pmap<usize>,
    classes: &mut Pmap<Class>,
    members: &mut Pmap<()>,
    name: usize,
    number: usize,
    blank: Blank,
) -> Result<(), AllocError>
    requires fits { AreClasses members.old (found (present classes.old)) (found (present numbers.old)) }
    requires resting { present members.old ≡ [] }
    requires blank_name { blank.name ≡ L.name }
    requires blank_parts { blank.parts ≡ L.parts }
    requires blank_some { 0 < blank.parts }
    ensures ok { OnOk result (present numbers.new ≡ put_in name number (present numbers.old)) }
    ensures err { OnErr result (present numbers.new ≡ present numbers.old) }
    ensures fits { AreClasses members.new (found (present classes.new)) (found (present numbers.new)) }
    ensures resting { present members.new ≡ [] }
    ensures sets_last { Lasts members.old members.new }
    ensures classes_last { Lasts classes.old classes.new }
    ensures numbers_last { Lasts numbers.old numbers.new }
{
    let mut steps = Steps::<L>::new(blank);
    let none = members.share(&mut steps);
    let before = classes.share(&mut steps);
    match move_to(numbers, classes, members, name, number, none, &mut steps) {
        Ok(()) => {
            members.back(none, &mut steps);
            Ok(())
        }
        Err(error) => {
            members.back(none, &mut steps);
            classes.back(before, &mut steps);
            Err(error)
        }
    }
}
