//! Settings, once more.

ghost use Rattle.std.specs.Prelude.{◌≡◌};

use arrayvec::ArrayVec;
use switch_event::{Client, Config, Nas, PortConf};
use wire_core::copied;

/// The same settings once more.
pub fn copied_config(c: &Config) -> Config
    ensures { result ≡ c.now }
{
    Config {
        bridge: c.bridge,
        nas: Nas {
            ip: c.nas.ip,
            name: copied(&c.nas.name),
        },
        server: c.server,
        secret: copied(&c.secret),
        clients: same_clients(&c.clients),
        ports: same_ports(&c.ports),
        times: c.times,
        guest_wait: c.guest_wait,
        window: c.window,
        require_ma: c.require_ma,
        clock: c.clock,
        seed: c.seed,
    }
}

fn same_clients(clients: &ArrayVec<Client, 4>) -> ArrayVec<Client, 4>
    ensures { result ≡ clients.now }
{
    let mut same = ArrayVec::new();
    for client in clients.as_slice() {
        same.push(Client {
            ip: client.ip,
            secret: copied(&client.secret),
        });
    }
    same
}

fn same_ports(ports: &ArrayVec<PortConf, 60>) -> ArrayVec<PortConf, 60>
    ensures { result ≡ ports.now }
{
    let mut same = ArrayVec::new();
    for port in ports.as_slice() {
        same.push(*port);
    }
    same
}
