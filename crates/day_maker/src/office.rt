//! The settings of the switch.
ghost use Rattle.std.specs.Prelude.{◌≡◌, map};
ghost use Rattle.day_defs.specs.Office as office;
ghost use Rattle.day_defs.specs.Server as server;

use arrayvec::ArrayVec;
use day_defs::PORTS;
use machine_vars::Control;
use switch_event::{Config, PortConf};
use wire_core::Addr;

/// The settings of the switch of an office: 60 ports on which authentication decides, one RADIUS server,
/// and hosts that authenticate again each hour.
pub fn settings() -> Config
    ensures { result ≡ office.settings }
{
    let mut config = Config::empty();
    config.server = Addr {
        ip: [192, 0, 2, 20],
        port: 1812,
    };
    config.secret = secret();
    config.ports = ports();
    config.times.reauth = true;
    config
}

fn secret() -> ArrayVec<u8, 64>
    ensures { result.items ≡ server.secret }
{
    let mut secret = ArrayVec::new();
    let _fits = secret.try_extend_from_slice(b"load");
    secret
}

fn ports() -> ArrayVec<PortConf, 60>
    ensures { result.items ≡ map office.port_conf office.ports }
{
    let mut ports = ArrayVec::new();
    for n in 0..PORTS {
        ports.push(PortConf {
            port: n + 1,
            native: 1,
            control: Control::Auto,
            restricted: 0,
            guest: 0,
        });
    }
    ports
}
