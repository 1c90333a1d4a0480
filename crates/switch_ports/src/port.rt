//! One configured port.

ghost use Rattle.std.specs.Prelude.{◌≡◌, ◌==◌, ◌&&◌, ◌≤◌, ◌+◌, not, false, if◌then◌else◌};
ghost use Rattle.machine_defs.specs.BackendTable.{is_auto};
ghost use Rattle.machine_defs.specs.Live.{Live, Ready, InRange, Greeting, set, fresh};
ghost use Rattle.wire_defs.specs.Ethernet.{pae_group};
ghost use Rattle.out_tray.specs.Tray.{spare, turn_room};
ghost use Rattle.switch_defs.specs.Switch.{opened_port, port_address as address_of};
ghost use Rattle.switch_defs.specs.Turn.{guest_second};
ghost use Rattle.table_defs.specs.Told.{opens};
ghost use Rattle.switch_ports.specs.Ports.{IsForced, settled_to, with_said};

use crate::copy::copy_vars;
use machine_vars::{Control, Times, Vars};
use out_tray::Tray;
use port_machine::{fresh, greet, settle, to_all};
use std::marker::Model;
use switch_event::{Config, PortConf};
use wire_core::Mac;
use wire_defs::PAE_GROUP;

/// A configured port.
#[derive(Drop)]
pub struct PortState {
    // Its settings.
    conf: PortConf,
    // Whether its link is up.
    link: bool,
    // Its administrative control.
    control: Control,
    // For how many seconds an Identity request still waits before guests are let in; 0: it does not.
    guest_while: u32,
    // Whether guests are let in.
    guest_open: bool,
    // The variables by which it speaks where it is forced.
    forced: Vars,
}

impl Model for PortState {
    ghost use Rattle.switch_defs.specs.Switch.{Port};

    ghost Value = { Port };

    ghost view = { λ p. record {
      conf = p.conf;
      link = p.link;
      control = p.control;
      forced = p.forced;
      guest_while = p.guest_while;
      guest_open = p.guest_open;
    } };
}

impl PortState {
    /// A port whose link is down, of the bridge of these settings.
    pub(crate) fn open(conf: PortConf, c: &Config) -> PortState
        ensures { result ≡ opened_port c.now conf }
    {
        PortState {
            conf,
            link: false,
            control: conf.control,
            guest_while: 0,
            guest_open: false,
            forced: fresh(
                conf.port,
                port_address(c.bridge, conf.port),
                Mac(PAE_GROUP),
                conf.control,
                &c.times,
            ),
        }
    }

    /// Its settings.
    pub fn conf(&self) -> PortConf
        ensures { result ≡ self.now.conf }
    {
        self.conf
    }

    /// Whether its link is up.
    pub fn link(&self) -> bool
        ensures { result ≡ self.now.link }
    {
        self.link
    }

    /// Its administrative control (IEEE Std 802.1X-2004, 8.2.2.2).
    pub fn control(&self) -> Control
        ensures { result ≡ self.now.control }
    {
        self.control
    }

    /// Whether it lets guests in.
    pub fn guest_open(&self) -> bool
        ensures { result ≡ self.now.guest_open }
    {
        self.guest_open
    }

    pub(crate) fn set_link(&mut self, up: bool)
        ensures { self.new ≡ record self.old { link = up } }
    {
        self.link = up;
    }

    pub(crate) fn set_control(&mut self, control: Control)
        ensures { self.new ≡ record self.old { control = control } }
    {
        self.control = control;
    }

    /// Waits for so many seconds before guests are let in, where it is Auto and up, has a VLAN for them,
    /// and no session (`occupied`).
    pub(crate) fn arm(&mut self, occupied: bool, wait: u32)
        ensures { self.new ≡ record self.old {
          guest_while =
              if is_auto self.old.control && self.old.link && not (self.old.conf.guest == 0) && not occupied
              then wait else self.old.guest_while;
        } }
    {
        let is_auto = self.control == Control::Auto;
        if is_auto && self.link && self.conf.guest != 0 && !occupied {
            self.guest_while = wait;
        }
    }

    pub(crate) fn no_guests(&mut self)
        ensures { self.new ≡ record self.old { guest_while = 0; guest_open = false } }
    {
        self.guest_while = 0;
        self.guest_open = false;
    }

    /// A second goes by; whether guests are let in from now on, and were not before.
    pub(crate) fn second(&mut self) -> bool
        ensures port { self.new ≡ guest_second self.old }
        ensures opens { result ≡ opens self.old }
    {
        let opens = self.guest_while == 1 && !self.guest_open;
        self.guest_open = self.guest_open || self.guest_while == 1;
        self.guest_while = self.guest_while.saturating_sub(1);
        opens
    }

    /// A host of this address begins on the forced port.
    pub(crate) fn greet(&mut self, from: Mac, tray: &mut Tray)
        requires forced { IsForced self.old }
        requires room { turn_room ≤ spare tray.old }
        ensures port { self.new ≡ settled_to (set (Greeting from.0) self.old.forced) self.old }
        ensures sent { tray.new ≡ with_said (set (Greeting from.0) self.old.forced) tray.old }
        ensures room { spare tray.old ≤ spare tray.new + 72098 }
    {
        greet(&mut self.forced, from);
        self.settle(tray);
    }

    /// The port, whose address is `own`, begins under a forced control.
    pub(crate) fn begin(&mut self, own: Mac, control: Control, times: &Times, tray: &mut Tray)
        requires forced { is_auto control ≡ false }
        requires times { InRange times.now }
        requires room { turn_room ≤ spare tray.old }
        ensures port { let v = fresh self.old.conf.port own.0 pae_group control times.now in
            self.new ≡ settled_to v self.old }
        ensures sent { let v = fresh self.old.conf.port own.0 pae_group control times.now in
            tray.new ≡ with_said v tray.old }
        ensures room { spare tray.old ≤ spare tray.new + 72098 }
    {
        self.forced = fresh(self.conf.port, own, Mac(PAE_GROUP), control, times);
        self.settle(tray);
    }

    fn settle(&mut self, tray: &mut Tray)
        requires ready { Ready self.old.forced }
        requires forced { is_auto self.old.forced.port_control ≡ false }
        requires room { turn_room ≤ spare tray.old }
        ensures port { self.new ≡ settled_to self.old.forced self.old }
        ensures sent { tray.new ≡ with_said self.old.forced tray.old }
        ensures room { spare tray.old ≤ spare tray.new + 72098 }
    {
        let _rows = settle(&mut self.forced, tray);
        to_all(&mut self.forced);
    }

    pub(crate) fn copy_from(&mut self, other: &PortState)
        ensures { self.new ≡ other.now }
    {
        self.conf = other.conf;
        self.link = other.link;
        self.control = other.control;
        self.guest_while = other.guest_while;
        self.guest_open = other.guest_open;
        copy_vars(&mut self.forced, &other.forced);
    }
}

// The address of a port: the first five octets of the bridge's, and the port's number.
fn port_address(bridge: Mac, port: u8) -> Mac
    ensures { result.0 ≡ address_of bridge.0 port }
{
    let [a, b, c, d, e, _last] = bridge.0;
    Mac([a, b, c, d, e, port])
}
