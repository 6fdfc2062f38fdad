use ae_core::lists::List;
use ae_journal::journal::{Journal, JournalFail};
use ae_journal::lines::Line;
use std::test::Fail;

#[test]
fn notes_up_to_the_limit(rt: HostRuntime) -> Result<(), Fail> {
    let mut journal = Journal::new(rt.alloc(), 1)?;
    journal.note(Line::Back(0))?;
    journal.note(Line::TypeInstance {
        axiom: 0,
        sorts: List::new(rt.alloc()),
    })?;
    let refused = journal.note(Line::TypeInstance {
        axiom: 1,
        sorts: List::new(rt.alloc()),
    });
    assert!(rt; matches!(refused, Err(JournalFail::Full)));
    journal.note(Line::Back(0))?;
    assert_eq!(rt; journal.counted(), 1);
    assert_eq!(rt; journal.lines().len(), 3);
    Ok(())
}
