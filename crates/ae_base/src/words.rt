//! A `String` that contracts see as its bytes.

ghost use Rattle.std.specs.Prelude.{◌≡◌, IfOk, string_bytes};

use std::alloc::{AllocError, Global};
use std::marker::Model;

/// A name.
#[derive(Debug, Drop)]
pub struct Word {
    text: String,
}

impl Model for Word {
    ghost use Rattle.std.specs.Prelude.{List, ℕ, string_bytes};
    ghost use Rattle.std.specs.Coded.{coded_list, coded_ℕ};

    ghost Value = { List ℕ };

    ghost coded = { coded_list coded_ℕ };

    ghost view = { λ w. string_bytes w.text };
}

impl Word {
    /// The name of these bytes.
    pub fn from_string(text: String) -> Word
        ensures { result ≡ string_bytes text }
    {
        Word { text }
    }

    /// The bytes of the name, which is used up.
    pub fn into_string(self) -> String
        ensures { string_bytes result ≡ self }
    {
        let Word { text } = self;
        text
    }

    /// The bytes of the name, lent.
    pub fn as_str(&self) -> &str
        ensures { result.now ≡ self.now }
    {
        self.text.as_str()
    }

    /// An equal name; `Err` where there is no memory for it.
    pub fn copy(&self, alloc: Global) -> Result<Word, AllocError>
        ensures { IfOk result (λ copy. copy ≡ self.now) }
    {
        Ok(Word {
            text: String::from_str(alloc, self.text.as_str())?,
        })
    }
}
