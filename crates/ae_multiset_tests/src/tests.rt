ghost use Rattle.std.specs.Prelude.{IfOk};
ghost use Rattle.std.specs.List.Sorted.{IsNonDecreasing};

use ae_multiset::laws::RuleSet;
use ae_multiset::{common, compare, laws, minus, part_of, spelled, sum, union_};
use std::alloc::{AllocError, Global};
use std::cmp::Ordering;
use std::test::Fail;

/// A rule: the right side is put for the left side.
#[derive(Drop)]
struct Rule {
    left: Vec<usize>,
    right: Vec<usize>,
    ghost left_rises: { IsNonDecreasing left.items },
    ghost right_rises: { IsNonDecreasing right.items },
}

fn make_rule(alloc: Global, left: &[usize], right: &[usize]) -> Result<Rule, AllocError> {
    let left = spelled(alloc, left)?;
    let right = spelled(alloc, right)?;
    Ok(Rule { left, right })
}

/// The one result of the overlap: what the first rule makes of the least multiset that has both left sides.
fn result(alloc: Global, rule: &Rule, other: &Rule) -> Result<Vec<usize>, AllocError> {
    let shared = common(alloc, &rule.left, &other.left)?;
    let rest = minus(alloc, &other.left, &shared)?;
    sum(alloc, &rule.right, &rest)
}

/// The multiset with the right side for the left side.
fn replaced(alloc: Global, names: &[usize], rule: &Rule) -> Result<Vec<usize>, AllocError>
    requires { IsNonDecreasing names.now }
    ensures { IfOk result (λ v. IsNonDecreasing v.items) }
{
    let rest = minus(alloc, names, &rule.left)?;
    sum(alloc, &rest, &rule.right)
}

/// One step by the first rule that fits.
fn step(alloc: Global, rules: &[Rule], names: &[usize]) -> Result<Option<Vec<usize>>, AllocError> {
    let names = spelled(alloc, names)?;
    for rule in rules {
        if part_of(&rule.left, &names) {
            return Ok(Some(replaced(alloc, &names, rule)?));
        }
    }
    Ok(None)
}

/// Steps for as long as there is one, and at most ten.
fn reduce(alloc: Global, rules: &[Rule], names: &[usize]) -> Result<Vec<usize>, AllocError> {
    let mut now = spelled(alloc, names)?;
    for _ in 0..10 {
        match step(alloc, rules, &now)? {
            Some(next) => now = next,
            None => return Ok(now),
        }
    }
    Ok(now)
}

/// The rules of the example.
#[derive(Drop)]
struct ExampleRules {}

impl RuleSet for ExampleRules {
    ghost use Rattle.ae_multiset.specs.Normal.{IsRule};
    ghost use Rattle.ae_multiset.specs.Example.{all_three};

    ghost rule = { λ _ l r. IsRule all_three l r };
}

/// What the laws ask of a set of rules can be met.
#[test]
fn the_laws_apply_to_the_example(_rt: HostRuntime) {
    let rules = ExampleRules {};
    laws::reduction(&rules);
    laws::descent(&rules);
    laws::confluence(&rules);
    laws::normal_forms(&rules);
}

#[test]
fn an_overlap_that_does_not_join_becomes_a_rule(rt: HostRuntime) -> Result<(), Fail> {
    let alloc = rt.alloc();
    let first = make_rule(alloc, &[0, 1], &[2])?;
    let second = make_rule(alloc, &[0, 3], &[4])?;
    let one = result(alloc, &first, &second)?;
    let other = result(alloc, &second, &first)?;
    assert_eq!(rt; one.as_slice(), [2, 3].as_slice());
    assert_eq!(rt; other.as_slice(), [1, 4].as_slice());

    let mut rules = Vec::new(alloc);
    rules.push(first)?;
    rules.push(second)?;
    let answer = reduce(alloc, &rules, &[3, 0, 1])?;
    assert!(rt; answer.as_slice() == [2, 3].as_slice() || answer.as_slice() == [1, 4].as_slice());

    let one = spelled(alloc, &one)?;
    let other = spelled(alloc, &other)?;
    assert_eq!(rt; compare(&one, &other), Ordering::Less);
    rules.push(make_rule(alloc, &other, &one)?)?;
    assert_eq!(rt;
        reduce(alloc, &rules, &[0, 1, 3])?.as_slice(),
        [2, 3].as_slice()
    );
    rules.reverse();
    assert_eq!(rt;
        reduce(alloc, &rules, &[0, 1, 3])?.as_slice(),
        [2, 3].as_slice()
    );
    Ok(())
}

#[test]
fn names_count_as_often_as_they_stand(rt: HostRuntime) -> Result<(), Fail> {
    let alloc = rt.alloc();
    let one = spelled(alloc, &[3, 1, 1, 0, 3])?;
    let other = spelled(alloc, &[1, 4, 3, 1, 1])?;
    assert_eq!(rt; one.as_slice(), [0, 1, 1, 3, 3].as_slice());
    assert_eq!(rt;
        sum(alloc, &one, &other)?.as_slice(),
        [0, 1, 1, 1, 1, 1, 3, 3, 3, 4].as_slice()
    );
    assert_eq!(rt; minus(alloc, &one, &other)?.as_slice(), [0, 3].as_slice());
    assert_eq!(rt;
        common(alloc, &one, &other)?.as_slice(),
        [1, 1, 3].as_slice()
    );
    assert_eq!(rt;
        union_(alloc, &one, &other)?.as_slice(),
        [0, 1, 1, 1, 3, 3, 4].as_slice()
    );
    let part = spelled(alloc, &[3, 1])?;
    assert!(rt; part_of(&part, &one));
    assert!(rt; !part_of(&one, &other));
    assert_eq!(rt; compare(&one, &other), Ordering::Less);
    assert_eq!(rt; compare(&one, &part), Ordering::Greater);
    assert_eq!(rt; compare(&one, &one), Ordering::Equal);
    Ok(())
}
