//! Laws of the words. These functions do nothing: each one's contract is a theorem.
ghost use Rattle.std.specs.Prelude.{◌≡◌, ◌<◌, List};
ghost use Rattle.ae_cli.specs.Examples.{SomeWords};
ghost use Rattle.ae_cli.specs.Program.{AreRefused, States};
ghost use Rattle.ae_cli.specs.Words.{AreRight, Text};
ghost use Rattle.ae_cli.specs.declared.options.Options.{Options};

/// Words with what they state, and words that are wrong.
pub fn some_words()
    ensures { SomeWords }
{}

/// Right words state what they say, by `clap`'s matches too.
pub fn right_words_state()
    ensures { (words : List Text) (o : Options) → AreRight words o → States words o }
{}

/// Words that are refused state nothing.
pub fn refused_words_state_nothing()
    ensures { (words : List Text) (o : Options) → AreRefused words → States words o → ⊥ }
{}

/// Right words state one thing.
pub fn one_answer()
    ensures { (words : List Text) (o p : Options) → AreRight words o → AreRight words p → o ≡ p }
{}

/// Words state one of the three ways of picking.
pub fn ways_are_three()
    ensures { (words : List Text) (o : Options) → States words o → o.which < 3 }
{}
