//! Words as a user writes them.
use ae_cli::options::{CliFail, Mode, Options};
use ae_cli::words::options;
use ae_search_options::limits::Limits;
use std::alloc::{AllocError, Global};
use std::test::Fail;

fn listed(alloc: Global, parts: &[&str]) -> Result<Vec<String>, AllocError> {
    let mut words = Vec::new(alloc);
    for part in parts {
        words.push(String::from_str(alloc, part)?)?;
    }
    Ok(words)
}

fn some_options(steps: usize, generations: u32, which: usize, mode: Mode) -> Options {
    Options {
        limits: Limits { steps, generations },
        which,
        mode,
    }
}

#[test]
fn right_words_are_read(rt: HostRuntime) -> Result<(), Fail> {
    let alloc = rt.alloc();
    let none = listed(alloc, &[])?;
    assert_eq!(rt;
        options(alloc, none.as_slice())?,
        some_options(20_000, 6, 0, Mode::Prove)
    );
    let all = listed(
        alloc,
        &[
            "--steps-bound=7",
            "--gen-bound",
            "20",
            "--pick",
            "mixed",
            "--check",
        ],
    )?;
    assert_eq!(rt;
        options(alloc, all.as_slice())?,
        some_options(7, 20, 2, Mode::Check)
    );
    let demo = listed(alloc, &["--demo", "10000"])?;
    assert_eq!(rt;
        options(alloc, demo.as_slice())?,
        some_options(20_000, 6, 0, Mode::Demo(10_000))
    );
    Ok(())
}

#[test]
fn wrong_words_are_usage(rt: HostRuntime) -> Result<(), Fail> {
    let alloc = rt.alloc();
    let zero = listed(alloc, &["--steps-bound", "0"])?;
    assert!(rt; matches!(options(alloc, zero.as_slice()), Err(CliFail::Usage)));
    let both = listed(alloc, &["--check", "--demo", "1"])?;
    assert!(rt; matches!(options(alloc, both.as_slice()), Err(CliFail::Usage)));
    let other = listed(alloc, &["--pick", "best"])?;
    assert!(rt; matches!(options(alloc, other.as_slice()), Err(CliFail::Usage)));
    let help = listed(alloc, &["--help"])?;
    assert!(rt; matches!(options(alloc, help.as_slice()), Err(CliFail::Usage)));
    Ok(())
}
