// What is printed, octet by octet.
use crate::{
    Config, Decided, Decision, Drop9, Line, Outcome, Tray, print_config, print_control, print_data,
    print_line, print_trace,
};
use arrayvec::ArrayVec;
use out_tray::Sent;
use std::alloc::{AllocError, Global};
use std::test::Fail;
use switch_event::{AaaDrop, Client, Control, DynDrop, FrameDrop, PortConf};
use trace_defs::{Octets, Record};
use wire_core::Addr;

fn port(port: u8, restricted: u16, guest: u16) -> PortConf {
    PortConf {
        port,
        native: 10,
        control: Control::Auto,
        restricted,
        guest,
    }
}

fn secret(octets: &[u8]) -> ArrayVec<u8, 64> {
    let mut secret = ArrayVec::new();
    let _fits = secret.try_extend_from_slice(octets);
    secret
}

const PRINTED: &str = "bridge 020000010100
nas 192.0.2.10 sw1
server 192.0.2.20 1812 736563726574
client 192.0.2.30 64796e
port 3 10 auto
port 1 10 auto
port 2 10 auto
restricted 3 99
restricted 2 4094
guest 1 1
guest 2 77
set quiet-period 60
set server-timeout 30
set reauth-max 2
set reauth-period 3600
set reauth off
set guest-wait 5
set dyn-window 300
set require-ma off
clock 0
seed 0000000000000000000000000000000000000000000000000000000000000000
begin
";

fn settings() -> Config {
    let mut c = Config::empty();
    c.server = Addr {
        ip: [192, 0, 2, 20],
        port: 1812,
    };
    c.secret = secret(b"secret");
    let _fits = c.clients.try_push(Client {
        ip: [192, 0, 2, 30],
        secret: secret(b"dyn"),
    });
    let _fits = c.ports.try_push(port(3, 99, 0));
    let _fits = c.ports.try_push(port(1, 0, 1));
    let _fits = c.ports.try_push(port(2, 4094, 77));
    c.guest_wait = 5;
    c.require_ma = false;
    c
}

#[test]
fn settings_print_in_their_order(rt: HostRuntime) -> Result<(), Fail> {
    let mut out = Vec::new(rt.alloc());
    print_config(&settings(), &mut out)?;
    assert_eq!(rt; out.as_slice(), PRINTED.as_bytes());
    Ok(())
}

#[test]
fn a_trace_prints_its_settings_and_then_its_phases(rt: HostRuntime) -> Result<(), Fail> {
    let lines = [
        Line::Setting,
        Line::Begin,
        Line::Blank,
        Line::Control {
            lane: 2,
            what: Record::Link { port: 3, up: true },
        },
        Line::Sync,
        Line::Data {
            port: 1,
            octets: octets(rt.alloc(), &[0xab])?,
        },
        Line::Sync,
    ];
    let mut out = b"before\n".to_vec(rt.alloc())?;
    print_trace(&settings(), &lines, &mut out)?;
    let printed = format!(in rt.alloc();
        "before\n{PRINTED}@2 link 3 up\nsync\nframe 1 ab\nsync\n"
    )?;
    assert_eq!(rt; out.as_slice(), printed.as_bytes());
    Ok(())
}

fn octets(alloc: Global, octets: &[u8]) -> Result<Octets, AllocError> {
    Octets::of(alloc, octets)
}

// Control events in their lanes, and how they print.
fn control_lines(alloc: Global) -> Result<[(u8, Record, &'static str); 8], AllocError> {
    let from = Addr {
        ip: [192, 0, 2, 30],
        port: 3799,
    };
    Ok([
        (1, Record::Second, "tick\n"),
        (2, Record::Second, "@2 tick\n"),
        (
            3,
            Record::Link {
                port: 60,
                up: false,
            },
            "@3 link 60 down\n",
        ),
        (
            1,
            Record::SetControl {
                port: 1,
                control: Control::ForceUnauth,
            },
            "control 1 force-unauth\n",
        ),
        (
            2,
            Record::Frame {
                port: 1,
                octets: octets(alloc, &[0xff, 0])?,
            },
            "@2 frame 1 ff00\n",
        ),
        (
            1,
            Record::Radius {
                socket: 0,
                octets: octets(alloc, &[])?,
            },
            "radius -\n",
        ),
        (
            3,
            Record::Radius {
                socket: 4,
                octets: octets(alloc, &[10])?,
            },
            "@3 radius 4 0a\n",
        ),
        (
            1,
            Record::Dynamic {
                from,
                octets: octets(alloc, &[1])?,
            },
            "dyn 192.0.2.30 3799 01\n",
        ),
    ])
}

#[test]
fn records_print_without_lane_1_and_socket_0(rt: HostRuntime) -> Result<(), Fail> {
    for (lane, what, printed) in control_lines(rt.alloc())? {
        let mut out = Vec::new(rt.alloc());
        assert!(rt; lane >= 1 && lane <= 3);
        print_line(&Line::Control { lane, what }, &mut out)?;
        assert_eq!(rt; out.as_slice(), printed.as_bytes());
    }
    let mut out = Vec::new(rt.alloc());
    let frame = Line::Data {
        port: 2,
        octets: octets(rt.alloc(), &[])?,
    };
    for line in [Line::Begin, frame, Line::Sync, Line::Setting, Line::Blank] {
        print_line(&line, &mut out)?;
    }
    assert_eq!(rt; out.as_slice(), b"begin\nframe 2 -\nsync\n\n".as_slice());
    Ok(())
}

#[test]
fn each_outcome_has_its_text(rt: HostRuntime) -> Result<(), Fail> {
    let rows = [
        (Outcome::Done, "ok"),
        (
            Outcome::FrameDropped(FrameDrop::Elsewhere),
            "drop elsewhere",
        ),
        (
            Outcome::FrameDropped(FrameDrop::GroupSource),
            "drop group-source",
        ),
        (Outcome::FrameDropped(FrameDrop::Down), "drop down"),
        (
            Outcome::FrameDropped(FrameDrop::EapolShort),
            "drop eapol-short",
        ),
        (Outcome::FrameDropped(FrameDrop::Key), "drop key"),
        (
            Outcome::FrameDropped(FrameDrop::EapolType),
            "drop eapol-type",
        ),
        (
            Outcome::FrameDropped(FrameDrop::BodyShort),
            "drop body-short",
        ),
        (Outcome::FrameDropped(FrameDrop::EapShort), "drop eap-short"),
        (Outcome::FrameDropped(FrameDrop::EapCode), "drop eap-code"),
        (
            Outcome::FrameDropped(FrameDrop::EapLength),
            "drop eap-length",
        ),
        (
            Outcome::FrameDropped(FrameDrop::NotResponse),
            "drop not-response",
        ),
        (Outcome::FrameDropped(FrameDrop::Forced), "drop forced"),
        (
            Outcome::FrameDropped(FrameDrop::NoSession),
            "drop no-session",
        ),
        (Outcome::FrameDropped(FrameDrop::PortFull), "drop port-full"),
        (Outcome::AnswerDropped(AaaDrop::Malformed), "drop malformed"),
        (
            Outcome::AnswerDropped(AaaDrop::NoRequest),
            "drop no-request",
        ),
        (Outcome::AnswerDropped(AaaDrop::BadCode), "drop bad-code"),
        (
            Outcome::AnswerDropped(AaaDrop::BadAuthenticator),
            "drop bad-authenticator",
        ),
        (
            Outcome::AnswerDropped(AaaDrop::BadMessageAuth),
            "drop bad-message-auth",
        ),
        (Outcome::AnswerDropped(AaaDrop::Oversize), "drop oversize"),
        (Outcome::AnswerDropped(AaaDrop::BadEap), "drop bad-eap"),
        (Outcome::Acked, "ack"),
        (Outcome::Naked(503), "nak 503"),
        (Outcome::Again, "again"),
        (Outcome::RequestDropped(DynDrop::Stranger), "drop stranger"),
        (
            Outcome::RequestDropped(DynDrop::Malformed),
            "drop malformed",
        ),
        (Outcome::RequestDropped(DynDrop::Oversize), "drop oversize"),
        (Outcome::RequestDropped(DynDrop::BadCode), "drop bad-code"),
        (
            Outcome::RequestDropped(DynDrop::BadAuthenticator),
            "drop bad-authenticator",
        ),
        (
            Outcome::RequestDropped(DynDrop::BadMessageAuth),
            "drop bad-message-auth",
        ),
        (Outcome::RequestDropped(DynDrop::Stale), "drop stale"),
    ];
    let tray = Tray::open(rt.alloc(), 0)?;
    for (outcome, text) in rows {
        let mut out = Vec::new(rt.alloc());
        print_control(7, 2, 3, &outcome, &tray, &mut out)?;
        let printed = format!(in rt.alloc(); "c 7 @2 3 {text}\n")?;
        assert_eq!(rt; out.as_slice(), printed.as_bytes());
    }
    Ok(())
}

#[test]
fn what_was_sent_stands_in_its_order(rt: HostRuntime) -> Result<(), Fail> {
    let mut tray = Tray::open(rt.alloc(), 0)?;
    tray.put(Sent::Frame {
        port: 60,
        octets: &[1, 0xab],
    });
    tray.put(Sent::Radius {
        socket: 0,
        octets: &[2],
    });
    tray.put(Sent::Radius {
        socket: 3,
        octets: &[3],
    });
    tray.put(Sent::Reply {
        to: Addr {
            ip: [192, 0, 2, 30],
            port: 65_535,
        },
        octets: &[0xf0],
    });
    let mut out = Vec::new(rt.alloc());
    print_control(1_048_576, 1, 0, &Outcome::Acked, &tray, &mut out)?;
    assert_eq!(rt;
        out.as_slice(),
        b"c 1048576 @1 0 ack\nf 60 01ab\nr 02\nr 3 03\ny 192.0.2.30 65535 f0\n".as_slice()
    );
    Ok(())
}

#[test]
fn each_decision_has_its_text(rt: HostRuntime) -> Result<(), Fail> {
    let rows = [
        (Drop9::Runt, "runt"),
        (Drop9::Giant, "giant"),
        (Drop9::Control, "control"),
        (Drop9::Reserved, "reserved"),
        (Drop9::Tagged, "tagged"),
        (Drop9::GroupSource, "group-source"),
        (Drop9::Down, "down"),
        (Drop9::Closed, "closed"),
        (Drop9::Unauthorised, "unauthorised"),
    ];
    for (why, name) in rows {
        let mut out = Vec::new(rt.alloc());
        let d = Decided {
            front: 5,
            decision: Decision::Drop(why),
        };
        print_data(6, &d, &[], &mut out)?;
        let printed = format!(in rt.alloc(); "d 6 5 drop {name}\n")?;
        assert_eq!(rt; out.as_slice(), printed.as_bytes());
    }
    let mut out = Vec::new(rt.alloc());
    let d = Decided {
        front: 6,
        decision: Decision::Forward {
            session: 0,
            vlan: 77,
        },
    };
    print_data(8, &d, &[0xff, 0x81], &mut out)?;
    assert_eq!(rt; out.as_slice(), b"d 8 6 forward 0 77 ff81\n".as_slice());
    Ok(())
}
