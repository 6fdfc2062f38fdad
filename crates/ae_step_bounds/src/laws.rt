//! A law of the words. This function does nothing: its contract is a theorem.
ghost use Rattle.std.specs.Prelude.{◌≤◌, List};
ghost use Rattle.ae_cli.specs.Program.{States};
ghost use Rattle.ae_cli.specs.Words.{Text};
ghost use Rattle.ae_cli.specs.declared.options.Options.{Options};

/// Words state from 1 to 1,000,000 steps.
pub fn stated_steps_are_bounded()
    ensures least { (words : List Text) (o : Options) → States words o → 1 ≤ o.limits.steps }
    ensures most { (words : List Text) (o : Options) → States words o → o.limits.steps ≤ 1000000 }
{}
