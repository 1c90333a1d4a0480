ghost use Rattle.std.specs.Prelude.{◌≡◌};
ghost use Rattle.std.specs.List.{list_all};
ghost use Rattle.switch_event.specs.Config as settings;
ghost use Rattle.switch_event.specs.Config.{within};

use arrayvec::ArrayVec;
use machine_vars::{Control, Times};
use std::marker::Model;
use wire_core::{Addr, Mac};

/// A configured port.
#[derive(Clone, Copy, Debug, PartialEq, Eq)]
pub struct PortConf {
    /// Its number, 1 to 60.
    pub port: u8,
    /// The VLAN of its untagged frames where every host is authorised, 1 to 4094.
    pub native: u16,
    /// Its administrative control.
    pub control: Control,
    /// The VLAN of a host that the server rejected, 1 to 4094; 0 where there is none.
    pub restricted: u16,
    /// The VLAN of every source while nobody has answered, 1 to 4094; 0 where there is none.
    pub guest: u16,
}

/// Port 1 with VLAN 1, where authentication decides.
impl Default for PortConf {
    fn default() -> Self {
        PortConf {
            port: 1,
            native: 1,
            control: Control::Auto,
            restricted: 0,
            guest: 0,
        }
    }
}

/// A client that may send dynamic requests (RFC 5176).
#[derive(Drop)]
pub struct Client {
    /// Its address of IPv4.
    pub ip: [u8; 4],
    /// The secret shared with it, 1 to 64 octets.
    pub secret: ArrayVec<u8, 64>,
}

impl Model for Client {
    ghost use Rattle.switch_event.specs.Config as config;

    ghost Value = { config.Client };

    ghost view = { λ c. record { ip = c.ip; secret = c.secret.items } };
}

/// The address 0.0.0.0 and no secret.
impl Default for Client {
    fn default() -> Self {
        Client {
            ip: [0; 4],
            secret: ArrayVec::new(),
        }
    }
}

/// What the switch is to RADIUS servers: a network access server (RFC 2865, 1.1).
#[derive(Drop)]
pub struct Nas {
    /// Its address of IPv4.
    pub ip: [u8; 4],
    /// Its name, 1 to 32 octets.
    pub name: ArrayVec<u8, 32>,
}

impl Model for Nas {
    ghost use Rattle.switch_event.specs.Config as config;

    ghost Value = { config.Nas };

    ghost view = { λ n. record { ip = n.ip; name = n.name.items } };
}

/// The settings of the switch.
#[derive(Drop)]
pub struct Config {
    /// The address of the bridge. That of a port is its first five octets and the port's number.
    pub bridge: Mac,
    /// What the switch is to RADIUS servers.
    pub nas: Nas,
    /// The address and port of the RADIUS server.
    pub server: Addr,
    /// The secret shared with the server, 1 to 64 octets.
    pub secret: ArrayVec<u8, 64>,
    /// The clients that may send dynamic requests.
    pub clients: ArrayVec<Client, 4>,
    /// The configured ports.
    pub ports: ArrayVec<PortConf, 60>,
    /// The times and limits of the machines.
    pub times: Times,
    /// How many seconds an Identity request of a port is left unanswered before guests are let in, 1 to 65,535.
    pub guest_wait: u32,
    /// By how many seconds the Event-Timestamp of a dynamic request may differ from the clock, 1 to 86,400.
    pub window: u64,
    /// Whether the server and the clients must put a Message-Authenticator into what they send.
    pub require_ma: bool,
    /// The second at which the clock starts, below 2^32.
    pub clock: u64,
    /// The seed of the authenticators of requests.
    pub seed: [u8; 32],
}

impl Model for Config {
    ghost use Rattle.switch_event.specs.Config as config;

    ghost Value = { config.Config };

    ghost view = { λ c. record {
      bridge = c.bridge.0;
      nas = c.nas;
      server = record { ip = c.server.ip; port = c.server.port };
      secret = c.secret.items;
      clients = c.clients.items;
      ports = c.ports.items;
      times = c.times;
      guest_wait = c.guest_wait;
      window = c.window;
      require_ma = c.require_ma;
      clock = c.clock;
      seed = c.seed;
    } };
}

impl Config {
    /// The settings before the first is given: the bridge address 02-00-00-01-01-00, the access server 192.0.2.10 `sw1`, the
    /// server address 0.0.0.0 with port 0, an empty secret, no client, no port, the times 60 and 30 seconds, 2 attempts, no
    /// reauthentication, else each 3,600 seconds, guests after 30 seconds, a window of 300 seconds, a Message-Authenticator
    /// wanted, the clock at 0 and a seed of zeros.
    pub fn empty() -> Config
        ensures { result ≡ settings.empty }
    {
        let mut name = ArrayVec::new();
        name.push(b's');
        name.push(b'w');
        name.push(b'1');
        Config {
            bridge: Mac([2, 0, 0, 1, 1, 0]),
            nas: Nas {
                ip: [192, 0, 2, 10],
                name,
            },
            server: Addr {
                ip: [0; 4],
                port: 0,
            },
            secret: ArrayVec::new(),
            clients: ArrayVec::new(),
            ports: ArrayVec::new(),
            times: Times {
                quiet: 60,
                server: 30,
                reauth_max: 2,
                reauth_period: 3600,
                reauth: false,
            },
            guest_wait: 30,
            window: 300,
            require_ma: true,
            clock: 0,
            seed: [0; 32],
        }
    }

    /// Whether a port of this number is configured.
    pub fn has_port(&self, port: u8) -> bool
        ensures { result ≡ settings.has_port port self.now }
    {
        is_among(port, &self.ports)
    }

    /// Whether a client of this address is configured.
    pub fn has_client(&self, ip: &[u8; 4]) -> bool
        ensures { result ≡ settings.has_client ip.now self.now }
    {
        has_address(ip, &self.clients)
    }

    /// Whether a switch can run with these settings: the ports are 1 to 60 and differ, with VLANs from 1 to 4094, where the
    /// restricted and the guest VLAN may be 0; the addresses of the clients differ; secrets have 1 to 64 octets and the name
    /// of the access server 1 to 32; the port of the RADIUS server is not 0; the times, the waiting of guests, the window
    /// and the clock are in their ranges.
    pub fn valid(&self) -> bool
        ensures { result ≡ settings.is_valid self.now }
    {
        are_valid_ports(&self.ports)
            && are_valid_clients(&self.clients)
            && self.has_valid_names()
            && are_valid_times(&self.times)
            && self.has_valid_clock()
    }

    fn has_valid_names(&self) -> bool
        ensures { result ≡ settings.are_valid_names self.now }
    {
        (1..=32).contains(&self.nas.name.len())
            && self.server.port >= 1
            && (1..=64).contains(&self.secret.len())
    }

    fn has_valid_clock(&self) -> bool
        ensures { result ≡ settings.is_valid_clock self.now }
    {
        (1..=86_400).contains(&self.window)
            && (1..=65_535).contains(&self.guest_wait)
            && self.clock <= 4_294_967_295
    }
}

fn are_valid_ports(ports: &[PortConf]) -> bool
    ensures { result ≡ settings.are_valid_ports ports.now }
{
    are_numbered(ports) && ports_apart(ports) && have_valid_vlans(ports)
}

fn are_numbered(ports: &[PortConf]) -> bool
    ensures { result ≡ list_all (λ p. within 1 60 p.port) ports.now }
{
    ports.iter().all(|p| (1..=60).contains(&p.port))
}

fn have_valid_vlans(ports: &[PortConf]) -> bool
    ensures { result ≡ list_all settings.has_valid_vlans ports.now }
{
    ports.iter().all(|p| has_valid_vlans(p))
}

fn has_valid_vlans(p: &PortConf) -> bool
    ensures { result ≡ settings.has_valid_vlans p.now }
{
    (1..=4094).contains(&p.native) && p.restricted <= 4094 && p.guest <= 4094
}

fn ports_apart(ports: &[PortConf]) -> bool
    ensures { result ≡ settings.ports_apart ports.now }
{
    let mut rest = ports;
    while let [p, after @ ..] = rest {
        if is_among(p.port, after) {
            return false;
        }
        rest = after;
    }
    true
}

fn is_among(port: u8, ports: &[PortConf]) -> bool
    ensures { result ≡ settings.is_among port ports.now }
{
    ports.iter().any(|p| p.port == port)
}

fn are_valid_clients(clients: &[Client]) -> bool
    ensures { result ≡ settings.are_valid_clients clients.now }
{
    each_client_valid(clients) && clients_apart(clients)
}

fn each_client_valid(clients: &[Client]) -> bool
    ensures { result ≡ list_all settings.is_valid_client clients.now }
{
    clients.iter().all(|c| is_valid_client(c))
}

fn is_valid_client(c: &Client) -> bool
    ensures { result ≡ settings.is_valid_client c.now }
{
    (1..=64).contains(&c.secret.len())
}

fn clients_apart(clients: &[Client]) -> bool
    ensures { result ≡ settings.clients_apart clients.now }
{
    let mut rest = clients;
    while let [c, after @ ..] = rest {
        if has_address(&c.ip, after) {
            return false;
        }
        rest = after;
    }
    true
}

fn has_address(ip: &[u8; 4], clients: &[Client]) -> bool
    ensures { result ≡ settings.has_address ip.now clients.now }
{
    clients.iter().any(|c| c.ip[..] == ip[..])
}

fn are_valid_times(times: &Times) -> bool
    ensures { result ≡ settings.are_valid_times times.now }
{
    (1..=65_535).contains(&times.quiet)
        && (1..=65_535).contains(&times.server)
        && (1..=10).contains(&times.reauth_max)
        && times.reauth_period >= 1
}
