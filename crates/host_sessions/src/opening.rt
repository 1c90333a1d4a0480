//! A session opens.

ghost use Rattle.std.specs.Prelude.{◌≡◌, ◌≤◌, ◌<◌, ◌+◌, ◌^◌, true};
ghost use Rattle.machine_defs.specs.Live.{InRange};
ghost use Rattle.out_tray.specs.Tray.{spare};
ghost use Rattle.session_table.specs.Slots.{is_port};
ghost use Rattle.switch_defs.specs.Switch.{Port, State};
ghost use Rattle.switch_defs.specs.Turn.{fresh_standing, open_session};
ghost use Rattle.host_sessions.specs.Holds.{Holds};
ghost use Rattle.host_sessions.specs.Does.{Does, IsPortOf, MayOpen, is_gone};

use crate::sessions::Sessions;
use out_tray::Tray;
use switch_event::Config;
use wire_core::Mac;

impl Sessions {
    /// A session opens, under the next number, for a host that has none on its port, `port` with the
    /// address `own` and this native VLAN, where there is room for it (IEEE Std 802.1X-2004, 8.2.4). It
    /// may take 5,646 octets of the tray, which must be spare. The answer says whether its host was given
    /// up at once, and the session is closed again.
    pub fn open_session(
        &mut self,
        port: u8,
        own: Mac,
        mac: Mac,
        native: u16,
        c: &Config,
        tray: &mut Tray,
    ) -> bool
        requires port { is_port port ≡ true }
        requires times { InRange c.now.times }
        requires may { (s : State) × (q : Port) × Holds self.old s × (s.config ≡ c.now)
            × IsPortOf s q port own.0 native × MayOpen q mac.0 s }
        requires next { self.old.next + 1 < 2 ^ 32 }
        requires asked { self.old.asked + 1 < 2 ^ 64 }
        requires room { 5646 ≤ spare tray.old }
        ensures does { (s : State) (q : Port) → Holds self.old s → s.config ≡ c.now →
            IsPortOf s q port own.0 native → MayOpen q mac.0 s →
            Does (open_session s q mac.0) self.new tray.old tray.new }
        ensures gone { (s : State) (q : Port) → s.config ≡ c.now → IsPortOf s q port own.0 native →
            result ≡ is_gone (fresh_standing s q mac.0) }
        ensures asked { self.new.asked ≤ self.old.asked + 1 }
        ensures next { self.new.next ≡ self.old.next + 1 }
        ensures room { spare tray.old ≤ spare tray.new + 5646 }
    {
        let number = self.next;
        let (session, wants) = host_session::open(number, port, own, mac, native, &c.times, tray);
        let Ok(at) = self.slots.insert(port, mac, session) else {
            unreachable!()
        };
        self.next = number + 1;
        self.follow(at, wants, c, tray)
    }
}
