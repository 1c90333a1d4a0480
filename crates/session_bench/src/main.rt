//! What a session costs. With no word it prints the octets of a session and of what each state
//! keeps. With three words, as `admitted second 100`, it does something so often to each of 960
//! sessions in a state, for `bench/session.sh` to count: `asked`, `served` or `admitted`, and
//! `second`, `start` or `copy`.
#![tactic(auto)]

ghost use Rattle.std.specs.Prelude.{◌≡◌};
ghost use Rattle.machine_defs.specs.Live.{InRange};

use out_tray::Tray;
use std::env;
use std::mem::size_of;
use typed_session::{Admitted, Asked, Closed, Host, Lapsed, Refused, Served, Times, Verdict, open};
use wire_core::Mac;

// The Response with the identity `bob`.
const BOB: [u8; 8] = [2, 1, 0, 8, 1, 0x62, 0x6f, 0x62];

const ACCEPT: Verdict<'static> = Verdict::Accept {
    eap: None,
    timeout_reauth: 0,
};

fn times() -> Times
    ensures { InRange result }
{
    Times {
        quiet: 60,
        server: 30,
        reauth_max: 2,
        reauth_period: 3600,
        reauth: true,
    }
}

fn host(state: &str, tray: &mut Tray) -> Host {
    let own = Mac([0x02, 0x00, 0x00, 0x01, 0x01, 0x01]);
    let peer = Mac([0x02, 0x00, 0x00, 0x00, 0x00, 0xaa]);
    tray.clear();
    let mut host = open(1, own, peer, &times(), tray);
    if state != "asked" {
        host.on_eap(&BOB, tray);
        let _wants = host.wants();
    }
    if state == "admitted" {
        tray.clear();
        host.on_server(&ACCEPT, tray);
    }
    host
}

fn does(what: &str, host: &mut Host, other: &Host, tray: &mut Tray) {
    tray.clear();
    match what {
        "start" => host.on_start(tray),
        "copy" => host.copy_from(other),
        _ => host.on_second(false, tray),
    }
}

fn main(rt: HostRuntime) -> Result<(), anyhow::Error> {
    let mut words = Vec::new(rt.alloc());
    for word in env::args(&rt)? {
        words.push(word)?;
    }
    let (Some(state), Some(what), Some(rounds)) = (words.get(1), words.get(2), words.get(3)) else {
        println!(rt;
            "a session has {} octets, of which each state keeps",
            size_of::<Host>()
        )?;
        println!(rt; "{} while the host is asked", size_of::<Asked>())?;
        println!(rt; "{} while the server is asked", size_of::<Served>())?;
        println!(rt; "{} once the server was given up", size_of::<Lapsed>())?;
        println!(rt; "{} while the host is let in", size_of::<Admitted>())?;
        println!(rt; "{} while it is held", size_of::<Refused>())?;
        println!(rt; "{} once it was given up", size_of::<Closed>())?;
        return Ok(());
    };
    let rounds: u32 = rounds.as_str().parse()?;
    let mut tray = Tray::open(rt.alloc(), 1)?;
    let mut hosts = Vec::with_capacity(rt.alloc(), 960)?;
    for _ in 0..960 {
        hosts.push(host(state.as_str(), &mut tray))?;
    }
    let other = host(state.as_str(), &mut tray);
    for _ in 0..rounds {
        for host in hosts.iter_mut() {
            does(what.as_str(), host, &other, &mut tray);
        }
    }
    let admitted = hosts.iter().filter(|host| host.authorised()).count();
    println!(rt; "{admitted} of {} are authorised", hosts.len())?;
    Ok(())
}
