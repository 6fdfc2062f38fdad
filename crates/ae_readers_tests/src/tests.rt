//! The edges of numbers, words and names. What is expected is written by hand from the rules of the texts.
use ae_base::lists::List;
use ae_readers::{
    Closing, Fault, Form, read_below, read_fixed, read_integer, read_long, read_name, read_size,
};
use std::alloc::{AllocError, Global};
use std::test::Fail;

fn size_of(text: &[u8]) -> Option<(usize, usize)> {
    match read_size(text, 0, Closing::Blank) {
        Ok(((number, _), next)) => Some((number, next)),
        Err(_) => None,
    }
}

fn size_fault(text: &[u8]) -> Option<Fault> {
    match read_size(text, 0, Closing::Square) {
        Ok(_) => None,
        Err(fault) => Some(fault),
    }
}

fn integer_of(text: &[u8]) -> Option<i128> {
    match read_integer(text, 0, Closing::Bracket) {
        Ok(((number, _), _)) => Some(number),
        Err(_) => None,
    }
}

fn integer_fault(text: &[u8]) -> Option<Fault> {
    match read_integer(text, 0, Closing::Round) {
        Ok(_) => None,
        Err(fault) => Some(fault),
    }
}

// What stands below the stroke behind one digit.
fn bottom_of(text: &[u8]) -> Option<u128> {
    match read_long(text, 0, false, true, Closing::Line) {
        Ok(((top, _), next)) => match read_below(text, next, top, Closing::Line) {
            Ok(((bottom, _), _)) => Some(bottom),
            Err(_) => None,
        },
        Err(_) => None,
    }
}

fn bottom_fault(text: &[u8], top: u128) -> Option<Fault> {
    match read_below(text, 2, top, Closing::InLine) {
        Ok(_) => None,
        Err(fault) => Some(fault),
    }
}

fn word_fault(text: &[u8], word: &[u8]) -> Option<Fault> {
    if word.is_empty() {
        return None;
    }
    match read_fixed(text, 0, word) {
        Ok(_) => None,
        Err(fault) => Some(fault),
    }
}

// `a`, `ab` and `bit`.
fn table(alloc: Global) -> Result<List<List<u8>>, AllocError> {
    let mut words = List::new(alloc);
    words.push(List::from_slice(alloc, b"a")?)?;
    words.push(List::from_slice(alloc, b"ab")?)?;
    words.push(List::from_slice(alloc, b"bit")?)?;
    Ok(words)
}

fn name_of(words: &[List<u8>], text: &[u8]) -> Option<(usize, usize)> {
    match read_name(text, 0, words, Form::Lone, Closing::Round) {
        Ok(((place, _), next)) => Some((place, next)),
        Err(_) => None,
    }
}

fn name_fault(words: &[List<u8>], text: &[u8]) -> Option<Fault> {
    match read_name(text, 0, words, Form::Leaf, Closing::Round) {
        Ok(_) => None,
        Err(fault) => Some(fault),
    }
}

#[test]
fn sizes(rt: HostRuntime) -> Result<(), Fail> {
    assert!(rt; size_of(b"0 1") == Some((0, 2)));
    assert!(rt; size_of(b"18446744073709551615 ") == Some((18446744073709551615, 21)));
    assert!(rt; size_fault(b"18446744073709551616 ") == Some(Fault::At(19)));
    assert!(rt; size_fault(b"007]") == Some(Fault::At(1)));
    assert!(rt; size_fault(b"12)") == Some(Fault::At(2)));
    assert!(rt; size_fault(b"12") == Some(Fault::At(2)));
    assert!(rt;
        size_fault(b"999999999999999999999999999999999999999]") == Some(Fault::WideNumber(0))
    );
    Ok(())
}

#[test]
fn integers(rt: HostRuntime) -> Result<(), Fail> {
    assert!(rt; integer_of(b"-12)") == Some(-12));
    assert!(rt;
        integer_of(b"170141183460469231731687303715884105727)")
            == Some(170141183460469231731687303715884105727)
    );
    assert!(rt; integer_fault(b"-0 ") == Some(Fault::At(1)));
    assert!(rt; integer_fault(b"-05 ") == Some(Fault::At(1)));
    assert!(rt;
        integer_fault(b"-170141183460469231731687303715884105728 ") == Some(Fault::WideNumber(0))
    );
    Ok(())
}

#[test]
fn fractions(rt: HostRuntime) -> Result<(), Fail> {
    assert!(rt; bottom_of(b"2/43\n") == Some(43));
    assert!(rt; bottom_of(b"0/1\n") == Some(1));
    assert!(rt; bottom_fault(b"2/4\n", 2) == Some(Fault::At(3)));
    assert!(rt; bottom_fault(b"0/2\n", 0) == Some(Fault::At(2)));
    assert!(rt; bottom_fault(b"5/0\n", 5) == Some(Fault::At(2)));
    Ok(())
}

#[test]
fn words_and_names(rt: HostRuntime) -> Result<(), Fail> {
    let words = table(rt.alloc())?;
    assert!(rt; name_of(words.as_slice(), b"ab a") == Some((1, 3)));
    assert!(rt; name_of(words.as_slice(), b"a)") == Some((0, 2)));
    assert!(rt; name_fault(words.as_slice(), b"abc ") == Some(Fault::At(2)));
    assert!(rt; name_fault(words.as_slice(), b"bi ") == Some(Fault::At(2)));
    assert!(rt; name_fault(words.as_slice(), b"bit") == Some(Fault::At(3)));
    assert!(rt; word_fault(b"proof 3", b"proof 1") == Some(Fault::At(6)));
    Ok(())
}
