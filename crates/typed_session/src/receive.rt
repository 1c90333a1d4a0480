ghost use Rattle.std.specs.Prelude.{◌≡◌, ◌≤◌, ◌<◌, ◌+◌, length, true};
ghost use Rattle.machine_defs.specs.EapTable.{response_fits};
ghost use Rattle.typed_session.specs.Moves.{Fits, after_packet, ignored_by, served_by, to_server};

use crate::common::{fill, octets};
use crate::host::{Asked, Host, Served};
use crate::waiting::{idle_time, is_identity, response_fits};

impl Asked {
    pub(crate) fn copy(&self) -> Asked
        ensures { result ≡ self.now }
    {
        Asked {
            common: self.common.copy(),
            status: self.status,
            tries: self.tries,
            sent: self.sent,
            wait: self.wait,
            method: self.method,
            local: self.local,
            due: self.due,
            request: octets(self.request.as_slice()),
        }
    }
}

// A response goes to the server. Who gives its identity is known by it from then on.
fn to_server(eap: &[u8], a: &Asked) -> Served
    requires short { length eap.now ≤ 1500 }
    requires fits { response_fits eap.now a.now.common.id a.now.local ≡ true }
    ensures { result ≡ to_server eap.now a.now }
{
    let mut common = a.common.copy();
    common.ask = true;
    if is_identity(eap) {
        common.identity.clear();
        let _fits = common.identity.try_extend_from_slice(&eap[5..]);
    }
    let wait = common.times.server;
    Served {
        common,
        status: a.status,
        tries: a.tries,
        sent: a.sent,
        wait,
        method: a.method,
        local: a.local,
        due: a.due,
        heard: false,
        request: octets(a.request.as_slice()),
        latest: octets(eap),
        response: octets(eap),
    }
}

// The response of a host that is asked goes to the server.
fn ask_server(host: &mut Host, eap: &[u8])
    requires short { length eap.now ≤ 1500 }
    requires fits { Fits eap.now host.old }
    ensures { host.new ≡ served_by eap.now host.old }
{
    if let Host::Request(a) | Host::Ignore(a) = host {
        *host = Host::Server(to_server(eap, a));
    }
}

// What a host sends that is asked is ignored.
fn ignore(host: &mut Host)
    ensures { host.new ≡ ignored_by host.old }
{
    match host {
        Host::Request(a) => {
            let mut asked = a.copy();
            asked.wait = idle_time(a.method);
            *host = Host::Ignore(asked);
        }
        Host::Ignore(a) => a.wait = idle_time(a.method),
        _ => {}
    }
}

// An EAP packet of the host. A response to what was asked goes to the server, and another packet is
// ignored. While the server is asked it is kept, and looked at where the server asks on without a
// packet.
pub(crate) fn receive(host: &mut Host, eap: &[u8])
    requires { length eap.now ≤ 1500 }
    ensures { host.new ≡ (after_packet eap.now host.old).host }
{
    match host {
        Host::Request(a) => {
            if response_fits(eap, a.common.id, a.local) {
                ask_server(host, eap);
            } else {
                ignore(host);
            }
        }
        Host::Ignore(a) => {
            if response_fits(eap, a.common.id, a.local) {
                ask_server(host, eap);
            } else {
                ignore(host);
            }
        }
        Host::Server(a) => {
            a.heard = true;
            fill(&mut a.latest, eap);
        }
        _ => {}
    }
}
