//! What history, publishing and forwarding cost. With two words, as `forward 100`, it does one thing so often, for
//! `bench/forward.sh` to count: `keep` takes events of 27 octets into a journal, `post` publishes changes of no item,
//! `decide` asks a table about frames of 60 octets, and `forward` decides on such frames, which leave tagged. With no word it
//! does each ten times.
#![tactic(auto)]

ghost use Rattle.std.specs.Prelude.{◌≡◌, ◌<◌, [], IfOk};

use arrayvec::ArrayVec;
use auth_journal::Journal;
use auth_publish::{Publisher, Viewer, open};
use auth_table::{Decision, absorb, decide, opening};
use event_record::MOST_EVENTS;
use forward_worker::Worker;
use machine_vars::Control;
use std::alloc::{AllocError, Global};
use std::env;
use std::sync::Wait;
use switch_event::{Config, Event, PortConf};
use table_defs::Item;
use wire_core::Mac;

// Where a trace has as many events as there may be, a line of it has 64 octets, which is room for a frame of 27.
const EVENT: [u8; 27] = [0; 27];

// From the last of the hosts on the port.
const FRAME: [u8; 60] = [30; 60];

// How many hosts are let in on the port.
const HOSTS: u8 = 16;

fn settings() -> Config {
    let mut config = Config::empty();
    config.server.port = 1812;
    let _fits = config.secret.try_push(b's');
    let _fits = config.ports.try_push(PortConf {
        port: 1,
        native: 10,
        control: Control::Auto,
        restricted: 0,
        guest: 0,
    });
    config
}

// The port comes up, and its hosts are let in.
fn all_in() -> ArrayVec<Item, 17> {
    let mut items = ArrayVec::new();
    let _fits = items.try_push(Item::Link { port: 1, up: true });
    for host in 0..HOSTS {
        let _fits = items.try_push(Item::Let {
            port: 1,
            mac: Mac([2 * host; 6]),
            session: 1,
            vlan: 42,
        });
    }
    items
}

fn one_viewer<R: Wait>(rt: &R, alloc: Global) -> Result<(Publisher, Viewer), AllocError>
    ensures list { IfOk result (λ r. r.0.list ≡ []) }
{
    let settings = settings();
    if !settings.valid() {
        return Err(AllocError);
    }
    let (publisher, mut viewers) = open(rt, alloc, opening(&settings), 1)?;
    let viewer = viewers.pop().unwrap();
    Ok((publisher, viewer))
}

fn keep(alloc: Global, rounds: u32) -> Result<u64, anyhow::Error> {
    let mut journal = Journal::open(alloc)?;
    let event = Event::Frame {
        port: 1,
        octets: &EVENT,
    };
    for _ in 0..rounds {
        journal.stage(1, &event)?;
        journal.commit();
    }
    Ok(journal.len())
}

fn post<R: Wait>(rt: &R, publisher: &mut Publisher, rounds: u32) -> Result<u64, AllocError>
    requires empty { publisher.old.list ≡ [] }
    requires few { rounds < MOST_EVENTS }
{
    for _ in 0..rounds {
        publisher.post(rt, &[])?;
    }
    Ok(publisher.post(rt, all_in().as_slice())?.count())
}

// How many frames may leave. Each differs from the one before, so that each is looked at.
fn ask(rounds: u32) -> u32 {
    let settings = settings();
    if !settings.valid() {
        return 0;
    }
    let mut table = opening(&settings);
    absorb(&mut table, all_in().as_slice());
    let mut frame = FRAME;
    let mut leaving = 0u32;
    for n in 0..rounds {
        frame[59] = (n % 256) as u8;
        if let Decision::Forward { .. } = decide(&table, 1, &frame) {
            leaving = leaving.wrapping_add(1);
        }
    }
    leaving
}

// How many octets leave.
fn forward(worker: &mut Worker, rounds: u32) -> Result<usize, AllocError> {
    let mut out = ArrayVec::new();
    let mut octets = 0usize;
    for _ in 0..rounds {
        worker.forward(1, &FRAME, &mut out)?;
        octets = octets.wrapping_add(out.len());
    }
    Ok(octets)
}

fn main(rt: HostRuntime) -> Result<(), anyhow::Error> {
    let mut words = Vec::new(rt.alloc());
    for word in env::args(&rt)? {
        words.push(word)?;
    }
    let (what, rounds) = match (words.get(1), words.get(2)) {
        (Some(what), Some(rounds)) => (what.as_str(), rounds.as_str().parse::<u32>()?),
        _ => ("", 10),
    };
    let often = |name: &str| if what.is_empty() || what == name {
        rounds
    } else {
        0
    };
    let kept = keep(rt.alloc(), often("keep"))?;
    let (mut publisher, viewer) = one_viewer(&rt, rt.alloc())?;
    let posts = often("post").min(1_000_000);
    let posted = post(&rt, &mut publisher, posts);
    let leaving = ask(often("decide"));
    let octets = forward(&mut Worker::new(viewer), often("forward"));
    publisher.end(&rt);
    println!(rt;
        "{kept} events are kept, {} changes are published, {leaving} frames may leave, and {} octets do",
        posted?, octets?
    )?;
    Ok(())
}
