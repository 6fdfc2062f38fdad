//! The lines by which texts are refused. What is expected is the table of refused texts.

ghost use Rattle.std.specs.Prelude.{◌≡◌, ◌≤◌, true, length};
ghost use Rattle.std.specs.Option.{IfSome};
ghost use Rattle.ae_report.specs.Lines.{refused_at};

use ae_lex::LexFault;
use ae_readers::Fault;
use ae_report::{Refusal, refusal_text};
use ae_syntax::SyntaxFault;
use std::alloc::{AllocError, Global};

// The byte at which a text is refused, or 0 where there is none.
fn place(refusal: Refusal) -> usize
    ensures { IfSome (refused_at refusal) (λ at. result ≡ at) }
{
    match refusal {
        Refusal::Lex(fault) => match fault {
            LexFault::BadByte { at }
            | LexFault::OpenComment { at }
            | LexFault::WideLiteral { at }
            | LexFault::OutsideProfile { at } => at,
            LexFault::Memory => 0,
        },
        Refusal::Syntax(fault) => match fault {
            SyntaxFault::Unexpected { at }
            | SyntaxFault::TooDeep { at }
            | SyntaxFault::OutsideProfile { at } => at,
            SyntaxFault::Memory => 0,
        },
        Refusal::Proof(fault) => match fault {
            Fault::At(at) | Fault::WideNumber(at) => at,
            Fault::Memory => 0,
        },
        Refusal::NoSeparator | Refusal::TooLong => 0,
    }
}

// Whether a refusal's place is in the text.
fn is_within(text: &[u8], refusal: Refusal) -> bool
    ensures { result ≡ true → IfSome (refused_at refusal) (λ at. at ≤ length text.now) }
{
    place(refusal) <= text.len()
}

fn says(alloc: Global, text: &str, refusal: Refusal, line: &str) -> Result<bool, AllocError> {
    let bytes = text.as_bytes();
    if !is_within(bytes, refusal) {
        return Ok(false);
    }
    let found = refusal_text(alloc, bytes, &refusal)?;
    Ok(found.as_slice() == line.as_bytes())
}

#[test]
fn lexis(rt: HostRuntime) -> Result<(), AllocError> {
    let alloc = rt.alloc();
    let open = Refusal::Lex(LexFault::OpenComment { at: 0 });
    assert!(rt; says(alloc, "(* a (* b *)", open, "refused 1:1 open comment\n")?);
    let bad = Refusal::Lex(LexFault::BadByte { at: 14 });
    assert!(rt; says(alloc, "logic c : int $", bad, "refused 1:15 bad byte\n")?);
    let wide = Refusal::Lex(LexFault::WideLiteral { at: 9 });
    let text = "goal g : 170141183460469231731687303715884105728 = 0";
    assert!(rt; says(alloc, text, wide, "refused 1:10 wide literal\n")?);
    let outside = Refusal::Lex(LexFault::OutsideProfile { at: 3 });
    assert!(rt; says(alloc, "\n\n ^", outside, "refused 3:2 outside profile\n")?);
    Ok(())
}

#[test]
fn syntax(rt: HostRuntime) -> Result<(), AllocError> {
    let alloc = rt.alloc();
    let end = Refusal::Syntax(SyntaxFault::Unexpected { at: 12 });
    assert!(rt; says(alloc, "goal g : a =", end, "refused 1:13 unexpected\n")?);
    let word = Refusal::Syntax(SyntaxFault::OutsideProfile { at: 0 });
    assert!(rt; says(alloc, "theory T", word, "refused 1:1 outside profile\n")?);
    let deep = Refusal::Syntax(SyntaxFault::TooDeep { at: 9 });
    assert!(rt; says(alloc, "type t\n\n ((", deep, "refused 3:2 too deep\n")?);
    Ok(())
}

#[test]
fn answers(rt: HostRuntime) -> Result<(), AllocError> {
    let alloc = rt.alloc();
    let text = "goal g : a = a\n%%\ngoal g Valid\nprof 1\n";
    let wrong = Refusal::Proof(Fault::At(34));
    assert!(rt; says(alloc, text, wrong, "refused 4:4 proof text\n")?);
    let wide = Refusal::Proof(Fault::WideNumber(0));
    assert!(rt;
        says(
            alloc,
            "340282366920938463463374607431768211456",
            wide,
            "refused 1:1 wide number\n"
        )?
    );
    Ok(())
}

#[test]
fn whole(rt: HostRuntime) -> Result<(), AllocError> {
    let alloc = rt.alloc();
    assert!(rt; says(alloc, "", Refusal::TooLong, "refused input too long\n")?);
    assert!(rt;
        says(
            alloc,
            "goal g : a = a",
            Refusal::NoSeparator,
            "refused no separator\n"
        )?
    );
    Ok(())
}
