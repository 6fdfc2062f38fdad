//! The line that parts an input.
ghost use Rattle.std.specs.Prelude.{◌≡◌, ◌≤◌, take, drop, length, IfSome, IfNone};
ghost use Rattle.ae_separator.specs.Inner.Scans.{line_with};
ghost use Rattle.ae_separator.specs.Separators.{HasNoSeparator, IsParted};

/// Where an input is parted: the problem ends before the place `before`, and the output begins at the place `after`.
#[derive(Clone, Copy, Debug, PartialEq, Eq)]
pub struct Parted {
    pub before: usize,
    pub after: usize,
}

// What was read of a line so far.
#[derive(Clone, Copy, PartialEq, Eq)]
enum Line {
    Nothing,
    OneSign,
    TwoSigns,
    Other,
}

// The line goes on by a byte that doesn't end it.
fn longer(line: Line, byte: u8) -> Line
    ensures { result ≡ line_with line byte }
{
    match line {
        Line::Nothing if byte == b'%' => Line::OneSign,
        Line::OneSign if byte == b'%' => Line::TwoSigns,
        _ => Line::Other,
    }
}

/// The first line of exactly `%%`, whose end may be that of the input. `None` exactly where there is no such line.
pub fn parting(input: &[u8]) -> Option<Parted>
    ensures found { IfSome result (λ p. IsParted input.now (take p.before input.now) (drop p.after input.now)) }
    ensures within { IfSome result (λ p. p.after ≤ length input.now) }
    ensures order { IfSome result (λ p. p.before ≤ p.after) }
    ensures none { IfNone result (HasNoSeparator input.now) }
{
    let mut begin = 0;
    let mut line = Line::Nothing;
    for (at, byte) in input.iter().enumerate() {
        if *byte != b'\n' {
            line = longer(line, *byte);
            continue;
        }
        if line == Line::TwoSigns {
            return Some(Parted {
                before: begin,
                after: at + 1,
            });
        }
        begin = at + 1;
        line = Line::Nothing;
    }
    if line == Line::TwoSigns {
        return Some(Parted {
            before: begin,
            after: input.len(),
        });
    }
    None
}
