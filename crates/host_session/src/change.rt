//! What an acknowledged CoA-Request sets (RFC 5176, 2.2).

ghost use Rattle.std.specs.Prelude.{◌≡◌};
ghost use Rattle.radius_defs.specs.InRange.{HasTime};
ghost use Rattle.typed_session.specs.Follows.{SetsTimes};
ghost use Rattle.switch_defs.specs.Switch.{Standing, State};
ghost use Rattle.switch_defs.specs.Dynamic.{times_or, vlan_or};
ghost use Rattle.host_session.specs.Sits.{SitsAs};

use crate::session::Session;
use radius_defs::Timeout;

impl Session {
    /// The VLAN of its host, where one is given, and its times, where they are: when it ends, or after
    /// how long its host is authenticated again (RFC 5176, 3.6). Nothing settles.
    pub fn change(&mut self, vlan: Option<u16>, timeout: Timeout)
        requires { HasTime timeout }
        ensures changes { (x : Standing) (s : State) → SitsAs self.old x →
            x.vars.times ≡ s.config.times →
            SitsAs self.new (times_or timeout s (vlan_or vlan x)) }
        ensures number { self.new.number ≡ self.old.number }
    {
        self.vlan = vlan.unwrap_or(self.vlan);
        self.set_times(timeout);
    }

    fn set_times(&mut self, timeout: Timeout)
        requires { HasTime timeout }
        ensures changes { (x : Standing) (s : State) → SitsAs self.old x →
            x.vars.times ≡ s.config.times → SitsAs self.new (times_or timeout s x) }
        ensures number { self.new.number ≡ self.old.number }
    {
        match timeout {
            Timeout::Unset => {}
            Timeout::End(seconds) => self.set_end(seconds, 0),
            Timeout::Reauth(seconds) => self.set_end(0, seconds),
        }
    }

    // It ends after so many seconds, and its host is authenticated again after so many.
    fn set_end(&mut self, end_while: u32, reauth: u32)
        ensures number { self.new.number ≡ self.old.number }
        ensures vlan { self.new.vlan ≡ self.old.vlan }
        ensures state { self.new.state ≡ self.old.state }
        ensures restricted { self.new.restricted ≡ self.old.restricted }
        ensures end_while { self.new.end_while ≡ end_while }
        ensures times { SetsTimes reauth self.old.host self.new.host }
    {
        self.end_while = end_while;
        self.host.set_times(reauth);
    }
}
