//! Linear forms and values read, and what none goes on to. What is expected is written by hand from the rules of the texts.
use ae_num::forms::{Lin, Value};
use ae_readers::{Closing, Fault};
use ae_valuereader::{read_form, read_multiset, read_value};
use std::alloc::Global;
use std::test::Fail;

fn form_of(alloc: Global, text: &[u8]) -> Option<Lin> {
    match read_form(alloc, text, 0) {
        Ok((form, _)) => Some(form),
        Err(_) => None,
    }
}

fn form_fault(alloc: Global, text: &[u8]) -> Option<Fault> {
    match read_form(alloc, text, 0) {
        Ok(_) => None,
        Err(fault) => Some(fault),
    }
}

// The denominator, the constant, and the sum of names and of factors.
fn figures_of(alloc: Global, text: &[u8]) -> Option<(i128, i128, usize)> {
    match form_of(alloc, text) {
        None => None,
        Some(form) => Some((form.den, form.constant, form.parts.len())),
    }
}

fn part_of(alloc: Global, text: &[u8], place: usize) -> Option<(usize, i128)> {
    match form_of(alloc, text) {
        None => None,
        Some(form) => match form.parts.as_slice().get(place) {
            None => None,
            Some(part) => Some((part.key, part.factor)),
        },
    }
}

fn value_fault(alloc: Global, text: &[u8]) -> Option<Fault> {
    match read_value(alloc, text, 0, Closing::Line) {
        Ok(_) => None,
        Err(fault) => Some(fault),
    }
}

fn leaf_of(alloc: Global, text: &[u8]) -> Option<usize> {
    match read_value(alloc, text, 0, Closing::Line) {
        Ok(((Value::Leaf(name), _), _)) => Some(name),
        Ok(_) => None,
        Err(_) => None,
    }
}

fn fields_of(alloc: Global, text: &[u8]) -> Option<usize> {
    match read_value(alloc, text, 0, Closing::Line) {
        Ok(((Value::Fields(values), _), _)) => Some(values.len()),
        Ok(_) => None,
        Err(_) => None,
    }
}

fn multiset_of(alloc: Global, text: &[u8]) -> Option<usize> {
    match read_multiset(alloc, text, 0) {
        Ok((numbers, _)) => Some(numbers.len()),
        Err(_) => None,
    }
}

fn multiset_fault(alloc: Global, text: &[u8]) -> Option<Fault> {
    match read_multiset(alloc, text, 0) {
        Ok(_) => None,
        Err(fault) => Some(fault),
    }
}

#[test]
fn forms(rt: HostRuntime) -> Result<(), Fail> {
    assert!(rt; figures_of(rt.alloc(), b"(lin 1 0)") == Some((1, 0, 0)));
    assert!(rt; figures_of(rt.alloc(), b"(lin 2 -3)") == Some((2, -3, 0)));
    assert!(rt; figures_of(rt.alloc(), b"(lin 4 2 3 0 -1 7)") == Some((4, 2, 2)));
    assert!(rt; part_of(rt.alloc(), b"(lin 4 2 3 0 -1 7)", 0) == Some((0, 3)));
    assert!(rt; part_of(rt.alloc(), b"(lin 4 2 3 0 -1 7)", 1) == Some((7, -1)));
    assert!(rt;
        part_of(rt.alloc(), b"(lin 1 0 5 18446744073709551615)", 0)
            == Some((18446744073709551615, 5))
    );
    Ok(())
}

#[test]
fn wrong_forms(rt: HostRuntime) -> Result<(), Fail> {
    assert!(rt; form_fault(rt.alloc(), b"(lin 0 1)") == Some(Fault::At(5)));
    assert!(rt; form_fault(rt.alloc(), b"(lin -1 1)") == Some(Fault::At(5)));
    assert!(rt; form_fault(rt.alloc(), b"(lin 1 -0)") == Some(Fault::At(8)));
    assert!(rt; form_fault(rt.alloc(), b"(lin 2 4)") == Some(Fault::At(8)));
    assert!(rt; form_fault(rt.alloc(), b"(lin 2 4 6 1)") == Some(Fault::At(12)));
    assert!(rt; form_fault(rt.alloc(), b"(lin 2 4 0 1)") == Some(Fault::At(9)));
    assert!(rt; form_fault(rt.alloc(), b"(lin 1 0 1 5 1 5)") == Some(Fault::At(16)));
    assert!(rt; form_fault(rt.alloc(), b"(lin 1 0 1 5 1 4 ") == Some(Fault::At(16)));
    assert!(rt; form_fault(rt.alloc(), b"(lin 1 0 1 ") == Some(Fault::At(11)));
    assert!(rt; form_fault(rt.alloc(), b"(lin 1 0 1 18446744073709551616)") == Some(Fault::At(30)));
    assert!(rt; form_fault(rt.alloc(), b"(lin 1 0 1 18446744073709551615 ") == Some(Fault::At(31)));
    // before the greatest name a factor leaves no common divisor
    assert!(rt;
        form_fault(rt.alloc(), b"(lin 2 4 2 18446744073709551614 4 ") == Some(Fault::At(33))
    );
    Ok(())
}

#[test]
fn wide_forms(rt: HostRuntime) -> Result<(), Fail> {
    assert!(rt;
        form_fault(
            rt.alloc(),
            b"(lin 999999999999999999999999999999999999999 0)"
        ) == Some(Fault::WideNumber(5))
    );
    assert!(rt;
        form_fault(
            rt.alloc(),
            b"(lin 1 -999999999999999999999999999999999999999)"
        ) == Some(Fault::WideNumber(7))
    );
    assert!(rt;
        form_fault(
            rt.alloc(),
            b"(lin 1 0 1 999999999999999999999999999999999999999)"
        ) == Some(Fault::WideNumber(11))
    );
    Ok(())
}

#[test]
fn values(rt: HostRuntime) -> Result<(), Fail> {
    assert!(rt; leaf_of(rt.alloc(), b"12\n") == Some(12));
    assert!(rt; fields_of(rt.alloc(), b"(:)\n") == Some(0));
    assert!(rt; fields_of(rt.alloc(), b"(: 1 (lin 1 0 1 2) (: 3 (:)))\n") == Some(3));
    assert!(rt; value_fault(rt.alloc(), b"(lin 1 0)\n") == None);
    assert!(rt; value_fault(rt.alloc(), b"(: )\n") == Some(Fault::At(3)));
    assert!(rt; value_fault(rt.alloc(), b"(line 1 0)\n") == Some(Fault::At(4)));
    assert!(rt; value_fault(rt.alloc(), b"01\n") == Some(Fault::At(1)));
    assert!(rt; value_fault(rt.alloc(), b"1 ") == Some(Fault::At(1)));
    assert!(rt; value_fault(rt.alloc(), b"(: 1)") == Some(Fault::At(5)));
    Ok(())
}

#[test]
fn multisets(rt: HostRuntime) -> Result<(), Fail> {
    assert!(rt; multiset_of(rt.alloc(), b"]") == Some(0));
    assert!(rt; multiset_of(rt.alloc(), b"0 3 3 7]") == Some(4));
    assert!(rt; multiset_fault(rt.alloc(), b"3 2]") == Some(Fault::At(3)));
    assert!(rt; multiset_fault(rt.alloc(), b"3 02]") == Some(Fault::At(2)));
    assert!(rt; multiset_fault(rt.alloc(), b"3 ]") == Some(Fault::At(2)));
    assert!(rt; multiset_fault(rt.alloc(), b"3,4]") == Some(Fault::At(1)));
    Ok(())
}
