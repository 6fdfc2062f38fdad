//! Rising names, and their groups by sorts.
ghost use Rattle.std.specs.Prelude.{◌≡◌, ◌++◌, ◌∷◌, [], cond, false, IfOk, OnOk, OnErr};
ghost use Rattle.std.specs.List.{list_any};
ghost use Rattle.std.specs.Option.{MatchOption};
ghost use Rattle.ae_core.specs.Sorts.{same_sorts};
ghost use Rattle.ae_known.specs.Index as spec;
ghost use Rattle.ae_known.specs.Inner as inner;

use ae_core::copies::copy_sorts;
use ae_core::lists::List;
use ae_core::sorts::are_sorts;
use ae_core::terms::Sort;
use ae_num::forms::Name;
use std::alloc::{AllocError, Global};
use std::mem::replace;

/// The names of one head with these sorts, rising.
#[derive(Drop)]
pub struct Group {
    pub sorts: List<Sort>,
    pub names: List<Name>,
}

/// The names of one head, rising; and the same by their sorts.
#[derive(Drop)]
pub struct Line {
    pub names: List<Name>,
    pub groups: Vec<Group>,
}

/// Puts a name behind others where a test said so.
fn push_if(names: &mut List<Name>, passes: bool, name: Name) -> Result<(), AllocError>
    ensures { OnOk result (names.new ≡ names.old ++ cond passes (name ∷ []) []) }
{
    if passes {
        names.push(name)?;
    }
    Ok(())
}

/// The names below one.
fn below(alloc: Global, names: &[Name], name: Name) -> Result<List<Name>, AllocError>
    ensures { IfOk result (λ ns. ns ≡ spec.below name names.now) }
{
    let mut found = List::new(alloc);
    for other in names {
        push_if(&mut found, *other < name, *other)?;
    }
    Ok(found)
}

/// The names above one.
fn above(alloc: Global, names: &[Name], name: Name) -> Result<List<Name>, AllocError>
    ensures { IfOk result (λ ns. ns ≡ spec.above name names.now) }
{
    let mut found = List::new(alloc);
    for other in names {
        push_if(&mut found, name < *other, *other)?;
    }
    Ok(found)
}

/// The names with one more between them.
fn with_name(alloc: Global, names: &[Name], name: Name) -> Result<List<Name>, AllocError>
    ensures { IfOk result (λ ns. ns ≡ (spec.below name names.now ++ name ∷ []) ++ spec.above name names.now) }
{
    let mut all = below(alloc, names, name)?;
    all.push(name)?;
    let more = above(alloc, names, name)?;
    all.append(more)?;
    Ok(all)
}

/// Whether the last of the names, if there is one, is below this name.
fn is_behind(names: &[Name], name: Name) -> bool
    ensures { result ≡ spec.is_behind name names.now }
{
    match names.last() {
        None => true,
        Some(last) => *last < name,
    }
}

/// Puts a name in its place. What is answered undoes it.
#[tactic(auto, using(crate::proofs::IndexLaws::front_push))]
fn put(alloc: Global, names: &mut List<Name>, name: Name) -> Result<Option<List<Name>>, AllocError>
    ensures ok { OnOk result (names.new ≡ spec.with_name name names.old) }
    ensures before { IfOk result (λ before. inner.undone before names.new ≡ names.old) }
    ensures err { OnErr result (names.new ≡ names.old) }
{
    if is_behind(names.as_slice(), name) {
        names.push(name)?;
        return Ok(None);
    }
    let next = with_name(alloc, names.as_slice(), name)?;
    let old = replace(names, next);
    Ok(Some(old))
}

/// Undoes it. It takes no memory.
#[tactic(auto, using(crate::proofs::IndexLaws::front_push))]
fn take_back(names: &mut List<Name>, before: Option<List<Name>>)
    ensures { names.new ≡ inner.undone before names.old }
{
    match before {
        None => {
            names.pop();
        }
        Some(old) => {
            *names = old;
        }
    }
}

/// The place of the group of these sorts.
fn group_place(groups: &[Group], sorts: &[Sort]) -> Option<usize>
    ensures { MatchOption result (list_any (λ g. same_sorts g.sorts sorts.now) groups.now ≡ false) (inner.IsPlace sorts.now groups.now) }
{
    for place in 0..groups.len() {
        if are_sorts(groups[place].sorts.as_slice(), sorts) {
            return Some(place);
        }
    }
    None
}

/// The names of the group of these sorts.
pub fn group_names<'a>(groups: &'a [Group], sorts: &[Sort]) -> &'a [Name]
    ensures { result.now ≡ spec.group_names sorts.now groups.now }
{
    for group in groups {
        if are_sorts(group.sorts.as_slice(), sorts) {
            return group.names.as_slice();
        }
    }
    &[]
}

/// Puts a name in its place in a group.
fn enter_names(alloc: Global, group: &mut Group, name: Name) -> Result<(), AllocError>
    ensures sorts { group.new.sorts ≡ group.old.sorts }
    ensures ok { OnOk result (group.new.names ≡ spec.with_name name group.old.names) }
    ensures err { OnErr result (group.new.names ≡ group.old.names) }
{
    put(alloc, &mut group.names, name)?;
    Ok(())
}

/// Puts a name into the group of its sorts.
fn enter_group(
    alloc: Global,
    groups: &mut Vec<Group>,
    sorts: &[Sort],
    name: Name,
) -> Result<(), AllocError>
    ensures ok { OnOk result (groups.new.items ≡ spec.entered_groups sorts.now name groups.old.items) }
    ensures err { OnErr result (groups.new.items ≡ groups.old.items) }
{
    match group_place(groups.as_slice(), sorts) {
        Some(place) => enter_names(alloc, &mut groups[place], name),
        None => {
            let mut names = List::new(alloc);
            names.push(name)?;
            let sorts = copy_sorts(alloc, sorts)?;
            groups.push(Group { sorts, names })?;
            Ok(())
        }
    }
}

/// Puts a name into a line and into the group of its sorts there; refused for want of memory, into neither.
pub fn enter_line(
    alloc: Global,
    line: &mut Line,
    sorts: &[Sort],
    name: Name,
) -> Result<(), AllocError>
    ensures names { OnOk result (line.new.names ≡ spec.with_name name line.old.names) }
    ensures groups { OnOk result (line.new.groups.items ≡ spec.entered_groups sorts.now name line.old.groups.items) }
    ensures names_kept { OnErr result (line.new.names ≡ line.old.names) }
    ensures groups_kept { OnErr result (line.new.groups.items ≡ line.old.groups.items) }
{
    let before = put(alloc, &mut line.names, name)?;
    if let Err(failed) = enter_group(alloc, &mut line.groups, sorts, name) {
        take_back(&mut line.names, before);
        return Err(failed);
    }
    Ok(())
}
