use crate::{Entry, Octets, Record};
use machine_vars::Control;
use std::test::Fail;
use switch_event::Event;
use wire_core::Addr;

#[test]
fn a_record_has_what_its_event_has(rt: HostRuntime) -> Result<(), Fail> {
    let from = Addr {
        ip: [192, 0, 2, 30],
        port: 4000,
    };
    let events = [
        Event::Frame {
            port: 7,
            octets: b"frame",
        },
        Event::Radius {
            socket: 4,
            octets: b"datagram",
        },
        Event::Dynamic {
            from,
            octets: b"request",
        },
        Event::Second,
        Event::Link { port: 60, up: true },
        Event::SetControl {
            port: 2,
            control: Control::ForceAuth,
        },
    ];
    for event in &events {
        let record = Record::of(rt.alloc(), event)?;
        assert_eq!(rt; record.event(), *event);
        let entry = Entry::of(rt.alloc(), 3, event)?;
        assert_eq!(rt; entry.event(), *event);
        assert_eq!(rt; entry.lane(), 3);
    }
    Ok(())
}

#[test]
fn octets_are_those_that_were_given(rt: HostRuntime) -> Result<(), Fail> {
    let copied = Octets::of(rt.alloc(), b"octets")?;
    assert_eq!(rt; copied.as_slice(), b"octets".as_slice());
    let moved = Octets::from_vec(b"octets".to_vec(rt.alloc())?);
    assert_eq!(rt; moved.as_slice(), copied.as_slice());
    Ok(())
}
