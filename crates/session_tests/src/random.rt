//! A long random history, the same at each run.

ghost use Rattle.std.specs.Prelude.{◌≡◌};
ghost use Rattle.machine_defs.specs.Live.{InRange};

use crate::pair::{Pair, Step};
use arrayvec::ArrayVec;
use machine_vars::Times;
use typed_session::{Host, Verdict};
use wire_core::Mac;

const HOST: Mac = Mac([0x02, 0x00, 0x00, 0x00, 0x00, 0xaa]);

// The linear congruential generator of Knuth's MMIX, of which the upper half is taken.
#[derive(Drop)]
struct Random {
    state: u64,
}

impl Random {
    fn next(&mut self) -> u32 {
        self.state = self
            .state
            .wrapping_mul(6364136223846793005)
            .wrapping_add(1442695040888963407);
        (self.state >> 32) as u32
    }

    // A number below a bound, which is not 0.
    fn below(&mut self, bound: u32) -> u32 {
        match self.next().checked_rem(bound) {
            Some(number) => number,
            None => 0,
        }
    }

    fn octet(&mut self) -> u8 {
        let [octet, ..] = self.next().to_be_bytes();
        octet
    }

    fn is_one_in(&mut self, bound: u32) -> bool {
        self.below(bound) == 0
    }
}

fn times(kind: u32) -> Times
    ensures { InRange result }
{
    match kind {
        0 => Times {
            quiet: 1,
            server: 2,
            reauth_max: 1,
            reauth_period: 3,
            reauth: true,
        },
        1 => Times {
            quiet: 5,
            server: 9,
            reauth_max: 3,
            reauth_period: 11,
            reauth: true,
        },
        _ => Times {
            quiet: 60,
            server: 30,
            reauth_max: 2,
            reauth_period: 3600,
            reauth: false,
        },
    }
}

// An EAP packet: code, identifier, two octets for its length, type and some octets.
fn packet(random: &mut Random, code: u8, id: u8) -> ArrayVec<u8, 1500> {
    let mut octets = ArrayVec::new();
    let kind = if random.is_one_in(2) {
        1
    } else {
        random.octet()
    };
    let size = match random.below(16) {
        0 => 0,
        1 => 253,
        2 => 254,
        3 => 1495,
        _ => random.below(20),
    };
    let _fits = octets.try_extend_from_slice(&[code, id, 0, 0, kind]);
    for _ in 0..size {
        let _fits = octets.try_push(random.octet());
    }
    octets
}

// Mostly what fits the last request.
fn from_host(random: &mut Random, id: u8) -> ArrayVec<u8, 1500> {
    if random.is_one_in(16) {
        let mut octets = ArrayVec::new();
        let _fits = octets.try_extend_from_slice(&[2, id, 0, 4]);
        return octets;
    }
    let code = if random.is_one_in(8) {
        random.octet()
    } else {
        2
    };
    let id = if random.is_one_in(8) {
        random.octet()
    } else {
        id
    };
    packet(random, code, id)
}

fn verdict<'a>(random: &mut Random, eap: &'a [u8]) -> Verdict<'a> {
    let eap = if random.is_one_in(3) { None } else { Some(eap) };
    let number = if random.is_one_in(2) {
        0
    } else {
        random.below(30)
    };
    match random.below(3) {
        0 => match eap {
            Some(eap) => Verdict::Challenge { eap, wait: number },
            None => Verdict::Notice,
        },
        1 => Verdict::Accept {
            eap,
            timeout_reauth: number,
        },
        _ => Verdict::Reject { eap },
    }
}

// Something happens to both. Whether they look alike afterwards.
fn goes_on(pair: &mut Pair, random: &mut Random) -> bool {
    match random.below(16) {
        0 => pair.takes(Step::Start),
        1 => pair.takes(Step::Logoff),
        2..=5 => {
            let eap = from_host(random, pair.host.id());
            pair.takes(Step::Eap(eap.as_slice()))
        }
        6..=8 => {
            let id = random.octet();
            let eap = packet(random, 1, id);
            pair.takes(Step::Told(verdict(random, eap.as_slice())))
        }
        9 => {
            let reauth = random.below(9);
            pair.takes(Step::Times { reauth })
        }
        10 => pair.takes(Step::Second { gave_up: true }),
        _ => {
            let seconds = random.below(25);
            for _ in 0..seconds {
                if !pair.takes(Step::Second { gave_up: false }) {
                    return false;
                }
            }
            true
        }
    }
}

// The place of a session's state among the seven.
fn state(host: &Host) -> usize {
    match host {
        Host::Request(_) => 0,
        Host::Ignore(_) => 1,
        Host::Server(_) => 2,
        Host::GaveUp(_) => 3,
        Host::Authenticated(_) => 4,
        Host::Held(_) => 5,
        Host::Ended(_) => 6,
    }
}

#[test]
fn a_long_random_history_leads_both_to_the_same(rt: HostRuntime) {
    let mut random = Random { state: 20_041_213 };
    let mut pair = Pair::open(rt.alloc(), HOST, &times(2)).expect(&rt, "there is memory");
    let mut seen = [0u32; 7];
    for _ in 0..20_000 {
        assert!(rt; goes_on(&mut pair, &mut random));
        let place = state(&pair.host);
        if let Some(count) = seen.get_mut(place) {
            *count = count.wrapping_add(1);
        }
        if pair.v.gone || random.is_one_in(200) {
            let kind = random.below(3);
            pair = Pair::open(rt.alloc(), HOST, &times(kind)).expect(&rt, "there is memory");
        }
    }
    for count in seen {
        assert!(rt; count >= 100);
    }
}
