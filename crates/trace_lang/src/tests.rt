// Lines against the reasons to refuse them.
ghost use Rattle.std.specs.Prelude.{◌≡◌, IfOk, true};
ghost use Rattle.switch_event.specs.Config.{are_ports};

use crate::{Config, Control, Event, Line, LineErr, Octets, read_line};
use std::alloc::{AllocError, Global};
use std::test::Fail;
use trace_defs::{HEX, LANED};
use wire_core::Addr;

// The settings so far, and those that were given.
#[derive(Drop)]
struct Settings {
    config: Config,
    given: u32,
}

fn no_settings() -> Settings
    ensures { are_ports result.config.ports ≡ true }
{
    Settings {
        config: Config::empty(),
        given: 0,
    }
}

fn with_lines(alloc: Global, lines: &[&str]) -> Result<Settings, LineErr>
    ensures { IfOk result (λ s. are_ports s.config.ports ≡ true) }
{
    let mut s = no_settings();
    for line in lines {
        read_line(alloc, &mut s.config, &mut s.given, false, line.as_bytes())?;
    }
    Ok(s)
}

// Where a line stands: before any setting, before `begin`, or after it.
#[derive(Clone, Copy, Debug, PartialEq, Eq)]
enum When {
    Nothing,
    Before,
    After,
}

fn settings_of(alloc: Global, when: When) -> Result<Settings, LineErr>
    ensures { IfOk result (λ s. are_ports s.config.ports ≡ true) }
{
    if when == When::Nothing {
        return Ok(no_settings());
    }
    with_lines(
        alloc,
        &[
            "server 192.0.2.20 1812 736563726574",
            "port 1 10 auto",
            "port 3 10 auto",
            "restricted 3 99",
            "guest 3 77",
            "set guest-wait 5",
            "set require-ma on",
            "client 192.0.2.30 64796e",
            "client 192.0.2.31 64796e",
            "client 192.0.2.32 64796e",
            "client 192.0.2.33 64796e",
        ],
    )
}

// A line with so many octets `x` at its end.
fn padded(alloc: Global, line: &str, count: usize) -> Result<Vec<u8>, AllocError> {
    let mut text = line.as_bytes().to_vec(alloc)?;
    for _ in 0..count {
        text.push(b'x')?;
    }
    Ok(text)
}

// Where a line stands, its beginning, so many octets `x` behind that, and the reason.
const REFUSED: [(When, &str, usize, u8); 88] = [
    (When::Before, "", 10241, 1),
    (When::After, "\u{1}", 10240, 1),
    (When::Before, "@9 ", 10238, 1),
    (When::Before, "port 1 10 auto ", 10230, 1),
    (When::Before, "port 1 10 aut\u{7f}", 0, 2),
    (When::After, "@4\ttick", 0, 2),
    (When::Before, "Begin\u{e9}", 0, 2),
    (When::After, "sync\r\r", 0, 2),
    (When::After, "@4 tick", 0, 3),
    (When::After, "@1", 0, 3),
    (When::Before, "@1 nothing", 0, 3),
    (When::After, "@2 sync", 0, 3),
    (When::After, "@1 @2 tick", 0, 3),
    (When::Before, "@0 begin", 0, 3),
    (When::After, "Link 1 up", 0, 4),
    (When::Before, "set quiet 1", 0, 4),
    (When::After, "set quick 1 2", 0, 4),
    (When::Before, "acct 00", 0, 4),
    (When::After, "begin", 0, 5),
    (When::After, "port 1", 0, 5),
    (When::Before, "link 1", 0, 5),
    (When::Before, "sync", 0, 5),
    (When::After, "set", 0, 5),
    (When::Before, "set", 0, 6),
    (When::Before, "port 61 10", 0, 6),
    (When::After, "link 61", 0, 6),
    (When::After, "tick 1", 0, 6),
    (When::Before, "begin 1", 0, 6),
    (When::After, "sync sync", 0, 6),
    (When::Before, "port 61 10 automatic", 0, 7),
    (When::Before, "port 1 4095 off", 0, 7),
    (When::After, "frame 0 0", 0, 7),
    (When::After, "dyn 1.2.3.4 65536 0", 0, 7),
    (When::Before, "clock 4294967296", 0, 7),
    (When::Before, "clock 00", 0, 7),
    (
        When::Before,
        "nas 1.2.3.4.5 xxxxxxxxxxxxxxxxxxxxxxxxxxxxxxxxx",
        0,
        7,
    ),
    (When::Before, "client 1.2.3.256 zz", 0, 7),
    (When::After, "frame 2 0", 0, 8),
    (When::After, "dyn 1.2.3.4 1 0", 0, 8),
    (When::Before, "bridge 0200000101", 0, 8),
    (When::Before, "seed -", 0, 8),
    (
        When::Before,
        "server 1.2.3.4 1 5a5a5a5a5a5a5a5a5a5a5a5a5a5a5a5a5a5a5a5a5a5a5a5a5a5a5a5a5a5a5a5a5a5a5a5a5a5a5a5a5a5a5a5a5a5a5a5a5a5a5a5a5a5a5a5a5a5a5a5a5a5a5a5a5a",
        0,
        8,
    ),
    (When::After, "radius 0g", 0, 8),
    (When::Before, "port 1 1 on", 0, 9),
    (When::After, "link 2 on", 0, 9),
    (When::Before, "set reauth yes", 0, 9),
    (
        When::Before,
        "nas 1.2.3.4 xxxxxxxxxxxxxxxxxxxxxxxxxxxxxxxxx",
        0,
        9,
    ),
    (When::After, "control 2 closed", 0, 9),
    (When::After, "link 2 up", 0, 10),
    (When::After, "@1 frame 2 00", 0, 10),
    (When::After, "control 60 auto", 0, 10),
    (
        When::After,
        "frame 2 0180c20000030200000000aa888e01010000",
        0,
        10,
    ),
    (When::After, "@1 frame 1 00", 0, 11),
    (
        When::After,
        "@2 frame 1 ffffffffffff0200000000aa08004500",
        0,
        11,
    ),
    (When::After, "@3 frame 1 -", 0, 11),
    (When::Before, "port 1 20 auto", 0, 12),
    (When::Before, "server 192.0.2.20 1812 73", 0, 12),
    (When::Before, "client 192.0.2.30 01", 0, 12),
    (When::Before, "client 192.0.2.34 01", 0, 12),
    (When::Nothing, "begin", 0, 13),
    (When::Nothing, "  begin  ", 0, 13),
    (When::Nothing, "begin\r", 0, 13),
    (When::Before, "restricted 2", 0, 6),
    (When::Before, "guest 1 1 1", 0, 6),
    (When::After, "guest 1", 0, 5),
    (When::After, "restricted 0 0", 0, 5),
    (When::Before, "restricted 61 4095", 0, 7),
    (When::Before, "guest 2 0", 0, 7),
    (When::Before, "restricted 1 4095", 0, 7),
    (When::Before, "restricted 2 1", 0, 10),
    (When::Before, "guest 60 4094", 0, 10),
    (When::Before, "restricted 3 98", 0, 12),
    (When::Before, "guest 3 78", 0, 12),
    (When::Before, "Restricted 1 1", 0, 4),
    (When::Before, "set guest 5", 0, 4),
    (When::Before, "set guest-wait", 0, 6),
    (When::Before, "set guest-wait 0", 0, 7),
    (When::Before, "set guest-wait 65536", 0, 7),
    (When::Before, "set guest-wait 6", 0, 12),
    (When::Before, "set require-ma maybe", 0, 9),
    (When::Before, "set require-ma off", 0, 12),
    (When::After, "set require-ma maybe", 0, 5),
    (When::After, "radius", 0, 6),
    (When::After, "radius 5 0 0", 0, 6),
    (When::After, "radius 5 0g", 0, 7),
    (When::After, "radius 00 00", 0, 7),
    (When::After, "radius 4 0g", 0, 8),
    (When::After, "radius -0", 0, 8),
];

#[test]
fn a_line_is_refused_for_the_first_of_its_reasons(rt: HostRuntime) -> Result<(), Fail> {
    for (when, line, count, why) in REFUSED {
        let mut s = settings_of(rt.alloc(), when)?;
        let given = s.given;
        let text = padded(rt.alloc(), line, count)?;
        let answer = read_line(
            rt.alloc(),
            &mut s.config,
            &mut s.given,
            when == When::After,
            &text,
        );
        match answer {
            Ok(_) => assert!(rt; false, "at {line}"),
            Err(e) => assert_eq!(rt; e, LineErr::Bad { why }, "at {line}"),
        }
        assert_eq!(rt; s.given, given, "at {line}");
    }
    Ok(())
}

#[test]
fn lines_are_read(rt: HostRuntime) -> Result<(), Fail> {
    let rows: [(When, &str); 17] = [
        (When::Nothing, ""),
        (When::After, "   \r"),
        (When::Before, "# a comment \u{e9}"),
        (When::Before, "port 60 4094 force-unauth"),
        (When::Before, "  port  60   1 force-auth "),
        (When::Before, "bridge 0200000A0B0c"),
        (When::Before, "nas 10.0.0.1 -"),
        (When::Before, "set reauth-period 4294967295"),
        (When::Before, "restricted 1 4094"),
        (When::Before, "guest 1 1"),
        (When::Nothing, "set require-ma off"),
        (When::Before, "begin"),
        (When::After, "link 1 down\r"),
        (When::After, "@3 link 1 up"),
        (When::After, "frame 1 -"),
        (When::After, "frame 1 00fF"),
        (When::After, "sync"),
    ];
    for (when, line) in rows {
        let mut s = settings_of(rt.alloc(), when)?;
        let answer = read_line(
            rt.alloc(),
            &mut s.config,
            &mut s.given,
            when == When::After,
            line.as_bytes(),
        );
        assert!(rt; answer.is_ok(), "at {line}");
    }
    Ok(())
}

// A word of hexadecimal digits for so many zeros, behind the beginning of a line.
fn zeros(alloc: Global, line: &str, count: usize) -> Result<Vec<u8>, AllocError> {
    let mut text = line.as_bytes().to_vec(alloc)?;
    for _ in 0..count {
        text.extend_from_slice(b"00")?;
    }
    Ok(text)
}

// What a line is read as: a record of so many octets, another line, or the reason to refuse it.
#[derive(Clone, Copy, Debug, PartialEq, Eq)]
enum Found {
    Data(usize),
    Control(usize),
    Other,
    Refused(LineErr),
}

fn refused(why: u8) -> Found {
    Found::Refused(LineErr::Bad { why })
}

fn found_in(answer: &Result<Line, LineErr>) -> Found {
    match answer {
        Ok(Line::Data { octets, .. }) => Found::Data(octets.as_slice().len()),
        Ok(Line::Control { what, .. }) => match what.event() {
            Event::Frame { octets, .. } => Found::Control(octets.len()),
            Event::Radius { octets, .. } => Found::Control(octets.len()),
            Event::Dynamic { octets, .. } => Found::Control(octets.len()),
            _ => Found::Other,
        },
        Ok(_) => Found::Other,
        Err(e) => Found::Refused(*e),
    }
}

#[test]
fn a_frame_of_2001_octets_and_a_datagram_of_5001_are_refused(rt: HostRuntime) -> Result<(), Fail> {
    let rows = [
        ("frame 1 ", 2000, Found::Data(2000)),
        ("frame 1 ", 2001, refused(HEX)),
        ("@1 frame 2 ", 2001, refused(HEX)),
        (
            "frame 1 0180c20000030200000000aa888e",
            1504,
            Found::Control(1518),
        ),
        (
            "frame 1 0180c20000030200000000aa888e",
            1505,
            Found::Data(1519),
        ),
        (
            "@1 frame 1 0180c20000030200000000aa888e",
            1505,
            refused(LANED),
        ),
        ("radius ", 5000, Found::Control(5000)),
        ("radius ", 5001, refused(HEX)),
        ("radius 4 ", 5000, Found::Control(5000)),
        ("radius 4 ", 5001, refused(HEX)),
        ("dyn 192.0.2.30 3799 ", 5000, Found::Control(5000)),
        ("dyn 192.0.2.30 3799 ", 5001, refused(HEX)),
    ];
    for (line, count, wanted) in rows {
        let mut s = settings_of(rt.alloc(), When::After)?;
        let text = zeros(rt.alloc(), line, count)?;
        let answer = read_line(rt.alloc(), &mut s.config, &mut s.given, true, &text);
        assert_eq!(rt; found_in(&answer), wanted, "at {line}{count}");
    }
    Ok(())
}

#[test]
fn settings_are_valid_at_begin(rt: HostRuntime) -> Result<(), Fail> {
    let mut s = settings_of(rt.alloc(), When::Before)?;
    let answer = read_line(rt.alloc(), &mut s.config, &mut s.given, false, b"begin")?;
    assert!(rt; matches!(answer, Line::Begin));
    assert!(rt; s.config.valid());
    assert_eq!(rt; s.given, 0x1804);
    Ok(())
}

// An EAPOL-Start of host 02-00-00-00-00-AA to the group address of port access entities.
const START: [u8; 18] = [
    0x01, 0x80, 0xc2, 0x00, 0x00, 0x03, 0x02, 0x00, 0x00, 0x00, 0x00, 0xaa, 0x88, 0x8e, 0x01, 0x01,
    0x00, 0x00,
];

#[test]
fn the_event_of_a_record_has_its_fields(rt: HostRuntime) -> Result<(), Fail> {
    let client = Addr {
        ip: [192, 0, 2, 30],
        port: 0,
    };
    let rows: [(&str, u8, Event<'_>); 9] = [
        ("@3 link 3 up\r", 3, Event::Link { port: 3, up: true }),
        ("link 1 down", 1, Event::Link { port: 1, up: false }),
        ("@2 tick", 2, Event::Second),
        (
            "radius -",
            1,
            Event::Radius {
                socket: 0,
                octets: b"",
            },
        ),
        (
            "@1 radius 0 00",
            1,
            Event::Radius {
                socket: 0,
                octets: &[0],
            },
        ),
        (
            "@2 radius 4 00fF",
            2,
            Event::Radius {
                socket: 4,
                octets: &[0, 255],
            },
        ),
        (
            "dyn 192.0.2.30 0 09",
            1,
            Event::Dynamic {
                from: client,
                octets: &[9],
            },
        ),
        (
            "control 3 force-unauth",
            1,
            Event::SetControl {
                port: 3,
                control: Control::ForceUnauth,
            },
        ),
        (
            "@3 frame 1 0180c20000030200000000aa888e01010000",
            3,
            Event::Frame {
                port: 1,
                octets: &START,
            },
        ),
    ];
    for (line, at, event) in rows {
        let mut s = settings_of(rt.alloc(), When::After)?;
        let text = line.as_bytes();
        let read = read_line(rt.alloc(), &mut s.config, &mut s.given, true, text)?;
        match read {
            Line::Control { lane, what } => {
                assert_eq!(rt; lane, at, "at {line}");
                assert_eq!(rt; what.event(), event, "at {line}");
            }
            _ => assert!(rt; false, "no control event at {line}"),
        }
    }
    Ok(())
}

#[test]
fn octets_are_copied(rt: HostRuntime) -> Result<(), Fail> {
    assert_eq!(rt;
        Octets::of(rt.alloc(), b"abc")?.as_slice(),
        b"abc".as_slice()
    );
    Ok(())
}
