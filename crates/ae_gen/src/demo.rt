//! The text of the demo.

ghost use Rattle.std.specs.Prelude.{◌≡◌, ◌+◌, ◌++◌, ◌<◌, ◌^◌, ◌%◌, codes, decimal, IfOk, OnOk, string_bytes};
ghost use Rattle.ae_gen.specs.Demo.{names, declared, symbols, opening, constant, joined, equal_images, rearranged, steps_add_up, one_to_one, formula, goal_line, demo_text, chain_length};

use std::alloc::{AllocError, Global};

// How many constants of sort t there are.
const CONSTANTS: usize = 16;

// How many real constants there are.
const REAL_CONSTANTS: usize = 8;

// Writes the names that a letter makes with the numbers from 0 to `last`.
#[tactic(auto, unfolding(crate::specs::Demo::names))]
fn put_names(out: &mut String, letter: &str, last: usize) -> Result<(), AllocError>
    ensures { OnOk result (string_bytes out.new ≡ string_bytes out.old ++ names letter.now last) }
{
    for n in 0..last {
        write!(out, "{letter}{n}, ")?;
    }
    write!(out, "{letter}{last}")
}

// Writes the line that declares these names as constants of a sort.
#[tactic(auto, unfolding(crate::specs::Demo::declared))]
fn put_declared(out: &mut String, letter: &str, last: usize, sort: &str) -> Result<(), AllocError>
    ensures { OnOk result (string_bytes out.new ≡ string_bytes out.old ++ declared letter.now last sort.now) }
{
    write!(out, "logic ")?;
    put_names(out, letter, last)?;
    write!(out, " : {sort}\n")
}

// Writes the lines that declare the type and the symbols of goals.
#[tactic(auto, unfolding(crate::specs::Demo::symbols))]
fn put_symbols(out: &mut String) -> Result<(), AllocError>
    ensures { OnOk result (string_bytes out.new ≡ string_bytes out.old ++ symbols) }
{
    out.push_str("type t\nlogic ac u : t, t -> t\nlogic f : t -> t\nlogic h : real -> real\n")
}

// Writes the lines that declare.
#[tactic(auto, unfolding(crate::specs::Demo::opening))]
fn put_opening(out: &mut String) -> Result<(), AllocError>
    ensures { OnOk result (string_bytes out.new ≡ string_bytes out.old ++ opening) }
{
    put_symbols(out)?;
    put_declared(out, "a", CONSTANTS - 1, "t")?;
    put_declared(out, "x", REAL_CONSTANTS - 1, "real")
}

// The number of the constant at place `j` of goal `k`.
fn constant(k: usize, j: usize) -> usize
    requires small { k + j < 2 ^ 64 }
    ensures { result ≡ (k + j) % 16 }
{
    (k + j) % CONSTANTS
}

// The hypotheses that the constants from the first to the one at place `length` are equal, one after the other, and what follows.
#[tactic(auto, unfolding(crate::specs::Demo::equal_images, crate::specs::Demo::constant))]
fn put_equal_images(out: &mut String, k: usize, length: usize) -> Result<(), AllocError>
    requires length { length ≡ chain_length k }
    requires small { k < 2 ^ 32 }
    ensures { OnOk result (string_bytes out.new ≡ string_bytes out.old ++ equal_images k) }
{
    for j in 0..length {
        let (left, right) = (constant(k, j), constant(k, j + 1));
        write!(out, "a{left} = a{right} -> ")?;
    }
    let (first, last) = (constant(k, 0), constant(k, length));
    write!(out, "f(a{first}) = f(a{last})")
}

// Writes u of the constants at two places.
#[tactic(auto, unfolding(crate::specs::Demo::joined, crate::specs::Demo::constant))]
fn put_joined(out: &mut String, k: usize, i: usize, j: usize) -> Result<(), AllocError>
    requires small { k < 2 ^ 32 }
    requires places { (i < 8) × (j < 8) }
    ensures { OnOk result (string_bytes out.new ≡ string_bytes out.old ++ joined k i j) }
{
    let (left, right) = (constant(k, i), constant(k, j));
    write!(out, "u(a{left}, a{right})")
}

// Writes an equation of u of the constants at two places and the constant at a third, as a hypothesis.
#[tactic(auto, unfolding(crate::specs::Demo::constant))]
fn put_joined_is(
    out: &mut String,
    k: usize,
    i: usize,
    j: usize,
    whole: usize,
) -> Result<(), AllocError>
    requires small { k < 2 ^ 32 }
    requires places { (i < 8) × (j < 8) × (whole < 8) }
    ensures { OnOk result (string_bytes out.new ≡ string_bytes out.old ++ joined k i j ++ codes " = " ++ constant k whole ++ codes " -> ") }
{
    let whole = constant(k, whole);
    put_joined(out, k, i, j)?;
    write!(out, " = a{whole} -> ")
}

// That u is associative and commutative, on five constants.
#[tactic(auto, unfolding(crate::specs::Demo::rearranged))]
fn put_rearranged(out: &mut String, k: usize) -> Result<(), AllocError>
    requires small { k < 2 ^ 32 }
    ensures { OnOk result (string_bytes out.new ≡ string_bytes out.old ++ rearranged k) }
{
    put_joined_is(out, k, 0, 1, 2)?;
    put_joined_is(out, k, 0, 3, 4)?;
    put_joined(out, k, 2, 3)?;
    write!(out, " = ")?;
    put_joined(out, k, 4, 1)
}

// That steps of 1 add up.
#[tactic(auto, unfolding(crate::specs::Demo::steps_add_up, crate::specs::Demo::real_constant))]
fn put_steps(out: &mut String, k: usize, length: usize) -> Result<(), AllocError>
    requires length { length ≡ chain_length k }
    ensures { OnOk result (string_bytes out.new ≡ string_bytes out.old ++ steps_add_up k) }
{
    for j in 0..length {
        let next = j + 1;
        write!(out, "x{j} = x{next} + 1.0 -> ")?;
    }
    write!(out, "h(x0) = h(x{length}")?;
    write!(out, " + {length}.0)")
}

// What doesn't follow: equal images have equal arguments.
#[tactic(auto, unfolding(crate::specs::Demo::one_to_one, crate::specs::Demo::constant))]
fn put_one_to_one(out: &mut String, k: usize) -> Result<(), AllocError>
    requires small { k < 2 ^ 32 }
    ensures { OnOk result (string_bytes out.new ≡ string_bytes out.old ++ one_to_one k) }
{
    let (first, second) = (constant(k, 0), constant(k, 1));
    write!(out, "f(a{first}) = f(a{second}) -> a{first} = a{second}")
}

// The formula of goal `k`.
#[tactic(auto, unfolding(crate::specs::Demo::formula))]
fn put_formula(out: &mut String, k: usize) -> Result<(), AllocError>
    requires small { k < 2 ^ 32 }
    ensures { OnOk result (string_bytes out.new ≡ string_bytes out.old ++ formula k) }
{
    let length = 1 + k % 7;
    match k % 4 {
        0 => put_equal_images(out, k, length),
        1 => put_rearranged(out, k),
        2 => put_steps(out, k, length),
        _ => put_one_to_one(out, k),
    }
}

// The line of goal `k`.
#[tactic(auto, unfolding(crate::specs::Demo::goal_line))]
fn put_goal(out: &mut String, k: usize) -> Result<(), AllocError>
    requires small { k < 2 ^ 32 }
    ensures { OnOk result (string_bytes out.new ≡ string_bytes out.old ++ goal_line k) }
{
    write!(out, "goal g{k} : ")?;
    put_formula(out, k)?;
    write!(out, "\n")
}

/// The demo's text of so many goals, in the language that altac reads: constants of a type t and of `real`, an associative
/// and commutative `u`, free `f` and `h`, and then the goals `g0`, `g1` and on, a line each. Of four goals in a row the first
/// three follow and the last doesn't.
#[tactic(auto, unfolding(crate::specs::Demo::demo_text))]
pub fn demo_text(alloc: Global, goals: u32) -> Result<Vec<u8>, AllocError>
    ensures text { IfOk result (λ text. text.items ≡ demo_text goals) }
{
    let mut text = String::new(alloc);
    put_opening(&mut text)?;
    for k in 0..goals as usize {
        put_goal(&mut text, k)?;
    }
    Ok(text.into_bytes())
}
