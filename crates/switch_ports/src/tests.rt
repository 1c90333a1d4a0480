//! What no clause says: that there is memory, and each call once.

use crate::Ports;
use std::test::Fail;
use switch_event::{Config, Control, PortConf};

// Port 3, where authentication decides, with a VLAN for guests, and port 1, which is forced.
fn settings() -> Config {
    let mut c = Config::empty();
    c.server.port = 1812;
    let _fits = c.secret.try_push(b'k');
    let _fits = c.ports.try_push(PortConf {
        port: 3,
        native: 10,
        control: Control::Auto,
        restricted: 0,
        guest: 40,
    });
    let _fits = c.ports.try_push(PortConf {
        port: 1,
        native: 20,
        control: Control::ForceAuth,
        restricted: 0,
        guest: 0,
    });
    c
}

#[test]
fn ports_are_opened_changed_and_copied(rt: HostRuntime) -> Result<(), Fail> {
    let c = settings();
    assert!(rt; c.valid());
    let mut ports = Ports::open(rt.alloc(), &c)?;
    ports.set_link(3, true);
    ports.set_control(1, Control::ForceUnauth);
    ports.arm(3, false, 30);
    let were = ports.no_guests(3);
    assert!(rt; !were);
    let auto = ports.port(3).ok_or("port 3 is configured")?;
    assert!(rt; auto.link() && !auto.guest_open());
    assert_eq!(rt; auto.conf().guest, 40);
    let forced = ports.port(1).ok_or("port 1 is configured")?;
    assert_eq!(rt; forced.control(), Control::ForceUnauth);
    assert!(rt; ports.port(2).is_none());
    Ok(())
}
