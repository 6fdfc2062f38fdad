ghost use Rattle.std.specs.Prelude.{◌≡◌, ℕ, ◌<◌, OnOk};
ghost use Rattle.std.specs.List.{All};
ghost use Rattle.ae_pmap.specs.Forest.{IsRoot, Lasts};

use ae_pmap::{Pmap, Version, Walk};
use ae_steps::Steps;
use std::alloc::{AllocError, Global};
use std::marker::Brand;
use std::process::Abort;
use std::sync::ledger::{Blank, Ledger};
use std::test::Fail;

const TURNS: usize = 1000;

const KEYS: usize = 101;

/// A version, and what its map has, as a plain list.
#[derive(Drop)]
struct Moment {
    version: Version,
    plain: Vec<(usize, u64)>,
}

fn put(plain: &mut Vec<(usize, u64)>, key: usize, value: u64) -> Result<(), AllocError> {
    for pair in plain.iter_mut() {
        if pair.0 == key {
            pair.1 = value;
            return Ok(());
        }
    }
    plain.push((key, value))?;
    Ok(())
}

/// One insertion or removal by a fixed rule, in the map and in the list. Some of the keys that are removed are absent.
fn change(map: &mut Pmap<u64>, plain: &mut Vec<(usize, u64)>, turn: usize) -> Result<(), AllocError>
    requires { turn < 1000 }
    ensures lasts { Lasts map.old map.new }
{
    let key = turn * 37 % KEYS;
    if turn % 3 == 2 {
        let gone = turn * 61 % KEYS;
        map.remove(gone)?;
        plain.retain(|pair| pair.0 != gone);
        return Ok(());
    }
    map.insert(key, turn as u64)?;
    put(plain, key, turn as u64)
}

fn same(rt: &impl Abort, map: &Pmap<u64>, plain: &[(usize, u64)]) {
    for key in 0..KEYS {
        let want = plain.iter().find(|pair| pair.0 == key).map(|pair| pair.1);
        assert_eq!(rt; map.get(key).copied(), want, "at {key}");
    }
    for (key, value) in map.walk() {
        assert!(rt;
            plain.iter().any(|pair| pair.0 == key && pair.1 == *value),
            "at {key}"
        );
    }
}

fn check_back<L: Ledger>(
    rt: &impl Abort,
    map: &mut Pmap<u64>,
    moment: &Moment,
    steps: &mut Steps<L>,
)
    requires { IsRoot map.old moment.now.version }
    ensures { Lasts map.old map.new }
{
    map.back(moment.version, steps);
    same(rt, map, &moment.plain);
}

fn go_back<L: Ledger>(rt: &impl Abort, alloc: Global, blank: Blank) -> Result<(), Fail>
    requires name { blank.name ≡ L.name }
    requires parts { blank.parts ≡ L.parts }
    requires some { 0 < blank.parts }
{
    let mut steps = Steps::<L>::new(blank);
    let mut map = Pmap::new(alloc);
    let mut plain = Vec::new(alloc);
    let mut moments: Vec<Moment> = Vec::new(alloc);
    for turn in 0..TURNS {
        change(&mut map, &mut plain, turn)?;
        let version = map.share(&mut steps);
        moments.push(Moment {
            version,
            plain: plain.clone()?,
        })?;
    }
    for turn in (0..moments.len()).rev() {
        check_back(rt, &mut map, &moments[turn], &mut steps);
    }
    assert_eq!(rt; moments.len(), TURNS);
    check_back(rt, &mut map, &moments[500], &mut steps);
    Ok(())
}

#[test]
fn each_version_comes_back(rt: HostRuntime) -> Result<(), Fail> {
    go_back::<Brand>(&rt, rt.alloc(), Blank::new(1))
}

/// With ample memory nothing is refused here; a run in which one allocation fails shows that the refused
/// call changed nothing.
#[test]
fn a_refused_call_changes_nothing(rt: HostRuntime) -> Result<(), Fail> {
    let mut map = Pmap::new(rt.alloc());
    let mut plain = Vec::with_capacity(rt.alloc(), 64)?;
    for turn in 0..64 {
        let key = turn * 37 % 53;
        if map.insert(key, turn as u64).is_err() {
            same(&rt, &map, &plain);
            continue;
        }
        put(&mut plain, key, turn as u64)?;
    }
    for turn in 0..64 {
        let key = turn * 19 % 59;
        if map.remove(key).is_err() {
            same(&rt, &map, &plain);
            continue;
        }
        plain.retain(|pair| pair.0 != key);
        same(&rt, &map, &plain);
    }
    Ok(())
}

#[test]
fn values_need_not_be_copied(rt: HostRuntime) -> Result<(), Fail> {
    let mut map = Pmap::new(rt.alloc());
    for (key, name) in [(7, "seven"), (2, "two"), (usize::MAX, "most"), (2, "deux")] {
        map.insert(key, String::from_str(rt.alloc(), name)?)?;
    }
    map.remove(7)?;
    map.remove(7)?;
    assert_eq!(rt; map.get(2).map(|name| name.as_str()), Some("deux"));
    assert!(rt; map.get(7).is_none());
    let mut keys = Vec::new(rt.alloc());
    for (key, _) in map.walk() {
        keys.push(key)?;
    }
    assert_eq!(rt; keys.as_slice(), [2, usize::MAX].as_slice());
    Ok(())
}
