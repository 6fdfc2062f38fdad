//! The bytes that may close a text.
ghost use Rattle.std.specs.Prelude.{◌≡◌};
ghost use Rattle.ae_readers.specs.Readers.{close_of, closes};

/// Which two bytes may close a text.
#[derive(Clone, Copy, PartialEq, Eq)]
pub enum Closing {
    /// A blank.
    Blank,
    /// `)`.
    Bracket,
    /// The end of a line.
    Line,
    /// A blank or `]`.
    Square,
    /// A blank or `)`.
    Round,
    /// A blank or the end of a line.
    InLine,
}

impl Closing {
    /// The first of the two.
    #[tactic(auto, using(crate::proofs::Closings::one_of))]
    pub fn one(self) -> u8
        ensures { result ≡ (close_of self).one }
    {
        match self {
            Closing::Blank => 32,
            Closing::Bracket => 41,
            Closing::Line => 10,
            Closing::Square => 32,
            Closing::Round => 32,
            Closing::InLine => 32,
        }
    }

    /// The second of the two, which may be the first again.
    #[tactic(auto, using(crate::proofs::Closings::two_of))]
    pub fn two(self) -> u8
        ensures { result ≡ (close_of self).two }
    {
        match self {
            Closing::Blank => 32,
            Closing::Bracket => 41,
            Closing::Line => 10,
            Closing::Square => 93,
            Closing::Round => 41,
            Closing::InLine => 10,
        }
    }

    /// Whether a byte closes the text.
    pub fn closes(self, byte: u8) -> bool
        ensures { result ≡ closes self byte }
    {
        byte == self.one() || byte == self.two()
    }
}
