// A host logs in and is cut off, where each call that is refused is made once more.
ghost use Rattle.std.specs.Prelude.{◌≡◌, ◌≤◌, true, IfOk};
ghost use Rattle.switch_event.specs.Event.{happening};
ghost use Rattle.switch_defs.specs.Switch.{most_sessions};
ghost use Rattle.authenticator.specs.Meaning.{IsEvent};

use arrayvec::ArrayVec;
use auth_publish::Viewer;
use authenticator::copied_config;
use control_core::Core;
use eth_frame::is_control;
use forward_worker::Worker;
use hex::FromHex;
use machine_vars::Control;
use out_tray::Tray;
use std::alloc::{AllocError, Global};
use std::sync::Wait;
use std::test::Fail;
use switch_book::{Book, BookErr};
use switch_event::{Client, Config, Decision, Drop9, Event, Outcome, PortConf};
use wire_core::Addr;

// The octets are those of a trace whose output another program made.
const START: &str = "0180c20000030200000000aa888e01010000";

const IDENTITY: &str = "0180c20000030200000000aa888e010000080201000801626f62";

const ACCEPT: &str = "0200003cb9fc195ec6558d849f4846b7a15025645012d5a4b4612ba3b61cdd8fecbe25fa0f81\
    40060000000d410600000006510434324f0603010004";

const DISCONNECT: &str = "28070030c583563ad757fdb73bd83dd161f9bf395012cd88b8a89b1d4ed8fa71a2d0624f\
    f5de2c0a3030303030303031";

const DATA: &str = "ffffffffffff0200000000aa08004500";

const CLIENT: Addr = Addr {
    ip: [192, 0, 2, 30],
    port: 4000,
};

// The access server is 192.0.2.10, `sw1`.
fn settings() -> Config {
    let mut config = Config::empty();
    config.server = Addr {
        ip: [192, 0, 2, 20],
        port: 1812,
    };
    let _fits = config.secret.try_extend_from_slice(b"secret");
    let mut secret = ArrayVec::new();
    let _fits = secret.try_extend_from_slice(b"dyn");
    let ip = CLIENT.ip;
    let _fits = config.clients.try_push(Client { ip, secret });
    let _fits = config.ports.try_push(PortConf {
        port: 1,
        native: 10,
        control: Control::Auto,
        restricted: 0,
        guest: 0,
    });
    config
}

fn may_come(settings: &Config, e: &Event<'_>) -> bool
    ensures { result ≡ true → IsEvent settings.now (happening e.now) }
{
    match e {
        Event::Frame { port, octets } => settings.has_port(*port) && is_control(octets),
        Event::Radius { socket, .. } => *socket <= 4,
        Event::Link { port, .. } | Event::SetControl { port, .. } => settings.has_port(*port),
        Event::Dynamic { .. } | Event::Second => true,
    }
}

// A book under these settings, what its last event sends, and which call was refused last.
struct Desk {
    book: Book<Core>,
    settings: Config,
    tray: Tray,
    refused: &'static str,
}

// A desk and the viewers of its book: each call is made once more where it was refused.
fn open_desk<R: Wait>(rt: &R, alloc: Global) -> Result<(Desk, Vec<Viewer>), AllocError>
    ensures config { IfOk result (λ r. r.0.book.config ≡ r.0.settings) }
    ensures room { IfOk result (λ r. most_sessions ≤ r.0.tray.sessions) }
{
    let mut refused = "none";
    let tray = match Tray::open(alloc, 960) {
        Ok(tray) => tray,
        Err(_) => {
            refused = "Tray::open";
            Tray::open(alloc, 960)?
        }
    };
    let settings = settings();
    if !settings.valid() {
        return Err(AllocError);
    }
    let (book, viewers) = match Book::<Core>::open(rt, alloc, copied_config(&settings), 1) {
        Ok(opened) => opened,
        Err(_) => {
            refused = "open";
            Book::<Core>::open(rt, alloc, copied_config(&settings), 1)?
        }
    };
    let desk = Desk {
        book,
        settings,
        tray,
        refused,
    };
    Ok((desk, viewers))
}

impl Desk {
    // Offers an event, and once more where there was no memory: its serial, and what became of it.
    fn offer<R: Wait>(
        &mut self,
        rt: &R,
        call: &'static str,
        e: &Event<'_>,
    ) -> Option<(u64, Outcome)>
        requires config { self.old.book.config ≡ self.old.settings }
        requires room { most_sessions ≤ self.old.tray.sessions }
        ensures config { self.new.book.config ≡ self.new.settings }
        ensures room { most_sessions ≤ self.new.tray.sessions }
    {
        if !may_come(&self.settings, e) {
            return None;
        }
        let answer = match self.book.control(rt, 1, e, &mut self.tray) {
            Err(BookErr::NoMemory) => {
                self.refused = call;
                self.book.control(rt, 1, e, &mut self.tray)
            }
            other => other,
        };
        match answer {
            Ok(answer) => Some((answer.serial, answer.outcome)),
            Err(_) => None,
        }
    }
}

// A frame that came in on port 1.
fn frame(octets: &[u8]) -> Event<'_> {
    Event::Frame { port: 1, octets }
}

// Run with each allocation failing in turn, it shows that a refusal leaves all as it was, and that
// the same call then goes.
#[test]
fn a_login_is_as_if_nothing_was_refused(rt: HostRuntime) -> Result<(), Fail> {
    let start = <[u8; 18] as FromHex>::from_hex(START)?;
    let identity = <[u8; 26] as FromHex>::from_hex(IDENTITY)?;
    let accept = <[u8; 60] as FromHex>::from_hex(ACCEPT)?;
    let disconnect = <[u8; 48] as FromHex>::from_hex(DISCONNECT)?;
    let data = <[u8; 16] as FromHex>::from_hex(DATA)?;
    let stranger = Decision::Drop(Drop9::Unauthorised);
    let forward = Decision::Forward {
        session: 1,
        vlan: 42,
    };

    let (mut desk, mut viewers) = open_desk(&rt, rt.alloc())?;
    let viewer = viewers.pop().expect(&rt, "a viewer");
    let mut worker = Worker::new(viewer);
    let mut out = ArrayVec::new();

    let link = Event::Link { port: 1, up: true };
    let done = desk.offer(&rt, "link", &link);
    assert_eq!(rt; done, Some((0, Outcome::Done)));
    let done = desk.offer(&rt, "Start", &frame(&start));
    assert_eq!(rt; done, Some((1, Outcome::Done)));
    let done = desk.offer(&rt, "Response", &frame(&identity));
    assert_eq!(rt; done, Some((2, Outcome::Done)));
    let before = worker.forward(1, &data, &mut out).expect(&rt, "an entry");
    assert_eq!(rt; before.front, 3);
    assert_eq!(rt; before.decision, stranger);

    let answer = Event::Radius {
        socket: 0,
        octets: &accept,
    };
    let done = desk.offer(&rt, "Accept", &answer);
    assert_eq!(rt; done, Some((3, Outcome::Done)));
    assert_eq!(rt; desk.book.sessions(), 1);
    let beside = worker.forward(1, &data, &mut out).expect(&rt, "an entry");
    assert_eq!(rt; beside.front, 4);
    assert_eq!(rt; beside.decision, forward);
    assert_eq!(rt; out.len(), 20);

    let request = Event::Dynamic {
        from: CLIENT,
        octets: &disconnect,
    };
    let done = desk.offer(&rt, "Disconnect", &request);
    assert_eq!(rt; done, Some((4, Outcome::Acked)));
    let after = worker.forward(1, &data, &mut out).expect(&rt, "an entry");
    assert_eq!(rt; after.front, 5);
    assert_eq!(rt; after.decision, stranger);

    drop(worker);
    drop(viewers);
    let Desk {
        mut book,
        settings: _,
        tray: _,
        refused,
    } = desk;
    assert_eq!(rt; book.journal().len(), 5);
    assert!(rt; book.finish(&rt).is_ok());
    book.end(&rt);
    println!(rt; "refused: {refused}")?;
    Ok(())
}
