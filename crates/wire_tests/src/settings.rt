//! Settings.

use arrayvec::ArrayVec;
use machine_vars::Control;
use switch_event::{Client, Config, PortConf};

fn port(number: u8, native: u16) -> PortConf {
    PortConf {
        port: number,
        native,
        control: Control::Auto,
        restricted: 0,
        guest: 0,
    }
}

fn secret() -> ArrayVec<u8, 64> {
    let mut secret = ArrayVec::new();
    let _fits = secret.try_push(b'k');
    secret
}

fn settings() -> Config {
    let mut c = Config::empty();
    c.server.port = 1812;
    c.secret = secret();
    let _fits = c.ports.try_push(port(1, 10));
    let _fits = c.ports.try_push(port(60, 4094));
    let _fits = c.clients.try_push(Client {
        ip: [192, 0, 2, 30],
        secret: secret(),
    });
    c
}

// What is set of right settings, and whether they are still valid.
#[derive(Clone, Copy)]
struct Row {
    window: u64,
    clock: u64,
    reauth_max: u32,
    server_port: u16,
    is_valid: bool,
}

const RIGHT: Row = Row {
    window: 300,
    clock: 0,
    reauth_max: 2,
    server_port: 1812,
    is_valid: true,
};

const ROWS: [Row; 8] = [
    RIGHT,
    Row {
        window: 86_400,
        clock: 4_294_967_295,
        ..RIGHT
    },
    Row {
        window: 86_401,
        clock: 4_294_967_295,
        is_valid: false,
        ..RIGHT
    },
    Row {
        clock: 4_294_967_295,
        ..RIGHT
    },
    Row {
        clock: 4_294_967_296,
        is_valid: false,
        ..RIGHT
    },
    Row {
        reauth_max: 11,
        is_valid: false,
        ..RIGHT
    },
    Row {
        reauth_max: 10,
        ..RIGHT
    },
    Row {
        reauth_max: 10,
        server_port: 0,
        is_valid: false,
        ..RIGHT
    },
];

fn is_valid(row: &Row) -> bool {
    let mut config = settings();
    config.window = row.window;
    config.clock = row.clock;
    config.times.reauth_max = row.reauth_max;
    config.server.port = row.server_port;
    config.valid()
}

#[test]
fn settings_are_valid_where_each_number_is_in_its_range(rt: HostRuntime) {
    assert!(rt; settings().valid());
    assert!(rt; !Config::empty().valid());
    for row in ROWS {
        assert_eq!(rt; is_valid(&row), row.is_valid);
    }
}

fn with_port(port: PortConf) -> Config {
    let mut config = settings();
    let _fits = config.ports.try_push(port);
    config
}

fn with_client(ip: [u8; 4]) -> Config {
    let mut config = settings();
    let _fits = config.clients.try_push(Client {
        ip,
        secret: secret(),
    });
    config
}

#[test]
fn ports_and_clients_differ(rt: HostRuntime) {
    let config = settings();
    assert!(rt; config.has_port(60) && !config.has_port(2));
    assert!(rt; !with_port(port(1, 11)).valid());
    assert!(rt; config.has_client(&[192, 0, 2, 30]) && !config.has_client(&[192, 0, 2, 31]));
    assert!(rt; !with_client([192, 0, 2, 30]).valid());
}
