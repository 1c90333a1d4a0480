use crate::{Journal, JournalErr, MOST_EVENTS};
use machine_vars::Control;
use std::test::Fail;
use switch_event::Event;

#[test]
fn events_are_listed_in_the_order_in_which_they_were_committed(
    rt: HostRuntime,
) -> Result<(), Fail> {
    let mut journal = Journal::open(rt.alloc())?;
    let events = [
        Event::Link { port: 1, up: true },
        Event::Frame {
            port: 1,
            octets: b"octets",
        },
        Event::SetControl {
            port: 1,
            control: Control::ForceUnauth,
        },
    ];
    for (number, event) in events.iter().enumerate() {
        journal.stage(1, &Event::Second)?;
        journal.stage(2, event)?;
        assert_eq!(rt; journal.commit(), number as u64);
    }
    assert_eq!(rt; journal.len(), 3);
    for (number, event) in events.iter().enumerate() {
        assert_eq!(rt; journal.entry(number as u64), Some((2, *event)));
    }
    assert_eq!(rt; journal.entry(3), None);
    Ok(())
}

#[test]
fn a_journal_is_full_at_its_most_events(rt: HostRuntime) -> Result<(), Fail> {
    let mut journal = Journal::open(rt.alloc())?;
    for number in 0..MOST_EVENTS {
        journal.stage(1, &Event::Second)?;
        assert_eq!(rt; journal.commit(), number as u64);
    }
    let refused = journal.stage(1, &Event::Second);
    assert!(rt; matches!(&refused, Err(JournalErr::Full { events: 1_048_576 })));
    assert_eq!(rt; journal.len(), 1_048_576);
    assert_eq!(rt; journal.entry(1_048_575), Some((1, Event::Second)));
    assert_eq!(rt; journal.entry(1_048_576), None);
    Ok(())
}
