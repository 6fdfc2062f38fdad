//! The demo's text against its first goals written out.

use ae_gen::demo_text;
use std::alloc::AllocError;

const FOUR_GOALS: &str = "type t
logic ac u : t, t -> t
logic f : t -> t
logic h : real -> real
logic a0, a1, a2, a3, a4, a5, a6, a7, a8, a9, a10, a11, a12, a13, a14, a15 : t
logic x0, x1, x2, x3, x4, x5, x6, x7 : real
goal g0 : a0 = a1 -> f(a0) = f(a1)
goal g1 : u(a1, a2) = a3 -> u(a1, a4) = a5 -> u(a3, a4) = u(a5, a2)
goal g2 : x0 = x1 + 1.0 -> x1 = x2 + 1.0 -> x2 = x3 + 1.0 -> h(x0) = h(x3 + 3.0)
goal g3 : f(a3) = f(a4) -> a3 = a4
";

#[test]
fn four_kinds(rt: HostRuntime) -> Result<(), AllocError> {
    let text = demo_text(rt.alloc(), 4)?;
    assert!(rt; text.as_slice() == FOUR_GOALS.as_bytes());
    Ok(())
}
