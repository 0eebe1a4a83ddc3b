use super::*;
use std::test::*;

#[test]
fn entries_stand_in_order(rt: HostRuntime) -> Result<(), Fail> {
    let mut journal = Journal::new(rt.alloc(), 2)?;
    journal.note(Event::Claimed(0, 3));
    journal.note(Event::Held(0));
    let found = match journal.entries() {
        [Event::Claimed(0, 3), Event::Held(0)] => true,
        _ => false,
    };
    assert!(rt; found);
    Ok(())
}
