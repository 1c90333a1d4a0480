ghost use Rattle.std.specs.Prelude.{◌≡◌};

use crate::common::octets;
use crate::host::{Admitted, Asked, Closed, Common, Host, Lapsed, Refused, Served};
use arrayvec::ArrayVec;
use wire_core::fill;

impl Common {
    fn copy_from(&mut self, other: &Common)
        ensures { self.new ≡ other.now }
    {
        self.port = other.port;
        self.own = other.own;
        self.peer = other.peer;
        self.times = other.times;
        self.id = other.id;
        self.reauth = other.reauth;
        self.period = other.period;
        self.left = other.left;
        self.ask = other.ask;
        self.abort = other.abort;
        fill(&mut self.identity, &other.identity);
    }
}

impl Asked {
    fn copy_from(&mut self, other: &Asked)
        ensures { self.new ≡ other.now }
    {
        self.common.copy_from(&other.common);
        self.status = other.status;
        self.tries = other.tries;
        self.sent = other.sent;
        self.wait = other.wait;
        self.method = other.method;
        self.local = other.local;
        self.due = other.due;
        fill(&mut self.request, &other.request);
    }
}

impl Served {
    fn copy_from(&mut self, other: &Served)
        ensures { self.new ≡ other.now }
    {
        self.common.copy_from(&other.common);
        self.status = other.status;
        self.tries = other.tries;
        self.sent = other.sent;
        self.wait = other.wait;
        self.method = other.method;
        self.local = other.local;
        self.due = other.due;
        self.heard = other.heard;
        fill(&mut self.request, &other.request);
        fill(&mut self.latest, &other.latest);
        fill(&mut self.response, &other.response);
    }
}

fn served(a: &Served) -> Served
    ensures { result ≡ a.now }
{
    Served {
        common: a.common.copy(),
        status: a.status,
        tries: a.tries,
        sent: a.sent,
        wait: a.wait,
        method: a.method,
        local: a.local,
        due: a.due,
        heard: a.heard,
        request: octets(a.request.as_slice()),
        latest: octets(a.latest.as_slice()),
        response: octets(a.response.as_slice()),
    }
}

// A host that was in another state.
fn replace(host: &mut Host, other: &Host)
    ensures { host.new ≡ other.now }
{
    match other {
        Host::Request(b) => *host = Host::Request(b.copy()),
        Host::Ignore(b) => *host = Host::Ignore(b.copy()),
        Host::Server(b) => *host = Host::Server(served(b)),
        Host::GaveUp(b) => {
            *host = Host::GaveUp(Lapsed {
                common: b.common.copy(),
                status: b.status,
                tries: b.tries,
                wait: b.wait,
            });
        }
        Host::Authenticated(b) => {
            *host = Host::Authenticated(Admitted {
                common: b.common.copy(),
                tries: b.tries,
            });
        }
        Host::Held(b) => {
            *host = Host::Held(Refused {
                common: b.common.copy(),
                tries: b.tries,
                wait: b.wait,
                starts: b.starts,
                logs_off: b.logs_off,
            });
        }
        Host::Ended(b) => {
            *host = Host::Ended(Closed {
                id: b.id,
                ask: b.ask,
                abort: b.abort,
            });
        }
    }
}

impl Host {
    /// Makes it equal to another. Where both are in the same state of those in which most hosts are, no
    /// more is copied than what they keep.
    pub fn copy_from(&mut self, other: &Host)
        ensures { self.new ≡ other.now }
    {
        match other {
            Host::Request(b) => match self {
                Host::Request(a) => a.copy_from(b),
                _ => replace(self, other),
            },
            Host::Server(b) => match self {
                Host::Server(a) => a.copy_from(b),
                _ => replace(self, other),
            },
            Host::Authenticated(b) => match self {
                Host::Authenticated(a) => {
                    a.common.copy_from(&b.common);
                    a.tries = b.tries;
                }
                _ => replace(self, other),
            },
            _ => replace(self, other),
        }
    }
}
