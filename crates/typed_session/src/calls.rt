ghost use Rattle.std.specs.Prelude.{◌≡◌, ◌≤◌, ◌+◌, length, false, true};
ghost use Rattle.machine_vars.specs.declared.vars.Vars.{Vars as Values};
ghost use Rattle.machine_defs.specs.Live.{Start as Begin, Logoff, Packet, Notice, Second, cleared};
ghost use Rattle.out_tray.specs.Tray.{answer_room, frame_room, spare};
ghost use Rattle.typed_session.specs.Stands.{Stands};
ghost use Rattle.typed_session.specs.Moves.{kept_by, kept_in};
ghost use Rattle.typed_session.specs.Reads.{ShowsIdentity, ShowsResponse, wants_of, is_server, is_held, IsTold, IsHeld};
ghost use Rattle.typed_session.specs.Seconds.{is_idle};
ghost use Rattle.typed_session.specs.Cares.{Cares, Named, Rests, Leaves};
ghost use Rattle.typed_session.specs.Follows.{Follows, FollowsWord, Idles, SetsTimes};

use crate::host::{Common, Host};
use crate::log_off::log_off;
use crate::read::{clear, common, flags, id, identity, is_held, response, status};
use crate::receive::receive;
use crate::second::{idle, second};
use crate::start::start;
use crate::times::retime;
use crate::verdict::tell;
use machine_vars::{Verdict, Wants};
use out_tray::Tray;

// In the clauses a host stands for values of the machines' variables, to which `settled` does what
// settling does. A frame takes at most 1,534 octets of a tray: 1,518, and 16 beside them.
impl Host {
    /// The host begins, or begins anew (IEEE Std 802.1X-2004, 7.5.4). It may take 1,534 octets of
    /// the tray, which must be spare.
    pub fn on_start(&mut self, tray: &mut Tray)
        requires { frame_room ≤ spare tray.old }
        ensures follows { Follows Begin self.old self.new tray.old tray.new }
        ensures cares { Cares Begin self.old self.new }
        ensures room { spare tray.old ≤ spare tray.new + frame_room }
    {
        start(self, tray);
    }

    /// The host logs off. It may take 1,534 octets of the tray, which must be spare.
    pub fn on_logoff(&mut self, tray: &mut Tray)
        requires { frame_room ≤ spare tray.old }
        ensures follows { Follows Logoff self.old self.new tray.old tray.new }
        ensures cares { Cares Logoff self.old self.new }
        ensures room { spare tray.old ≤ spare tray.new + frame_room }
    {
        log_off(self, tray);
    }

    /// An EAP packet of the host, of at most 1,500 octets. It takes nothing of the tray.
    pub fn on_eap(&mut self, eap: &[u8], tray: &mut Tray)
        requires { length eap.now ≤ 1500 }
        ensures follows { Follows (Packet eap.now) self.old self.new tray.old tray.new }
        ensures cares { Cares (Packet eap.now) self.old self.new }
        ensures room { tray.new ≡ tray.old }
    {
        let _nothing = tray;
        receive(self, eap);
    }

    /// An answer of the server, whose EAP packet, where it has one, has 2 to 1,500 octets. It may
    /// take 3,068 octets of the tray, which must be spare: those of two frames.
    pub fn on_server(&mut self, v: &Verdict<'_>, tray: &mut Tray)
        requires told { IsTold v.now }
        requires room { answer_room ≤ spare tray.old }
        ensures follows { FollowsWord v.now self.old self.new tray.old tray.new }
        ensures cares { Cares Notice self.old self.new }
        ensures room { spare tray.old ≤ spare tray.new + answer_room }
    {
        tell(self, v, tray);
    }

    /// A second goes by; `gave_up`: in it the server is given up. It may take 1,534 octets of the
    /// tray, which must be spare.
    pub fn on_second(&mut self, gave_up: bool, tray: &mut Tray)
        requires { frame_room ≤ spare tray.old }
        ensures follows { Follows (Second gave_up) self.old self.new tray.old tray.new }
        ensures cares { Cares (Second gave_up) self.old self.new }
        ensures room { spare tray.old ≤ spare tray.new + frame_room }
    {
        second(self, gave_up, tray);
    }

    /// A second goes by for a host that is let in, where the server is not given up, nothing falls due
    /// and nothing is left to be done for the server's side: its timer falls in place, and nothing is
    /// sent. The answer says whether it was such a second; else nothing is done, and `on_second` does
    /// it.
    pub fn idle(&mut self) -> bool
        ensures idle { result ≡ is_idle self.old }
        ensures idles { result ≡ true → Idles self.old self.new }
        ensures stays { result ≡ false → self.new ≡ self.old }
    {
        idle(self)
    }

    /// Whether the host is Authorized: authPortStatus.
    pub fn authorised(&self) -> bool
        ensures { (v : Values) → Stands self.now v → result ≡ v.auth_port_status }
    {
        status(self)
    }

    /// The identifier of the last request: currentId.
    pub fn id(&self) -> u8
        ensures { (v : Values) → Stands self.now v → result ≡ v.current_id }
    {
        id(self)
    }

    /// What each state holds, of a session that goes on; none exactly once it has ended.
    pub fn common(&self) -> Option<&Common>
        ensures { kept_in result ≡ kept_by self.now }
    {
        common(self)
    }

    /// Whether the host was refused, and is not asked for a while: the state HELD.
    pub fn held(&self) -> bool
        ensures value { result ≡ is_held self.now }
        ensures state { (v : Values) → Stands self.now v → IsHeld result v }
    {
        is_held(self)
    }

    /// What the last event has left to do for the server's side, which counts as done from then on.
    pub fn wants(&mut self) -> Wants
        ensures ask { (v : Values) → Stands self.old v → result.ask ≡ v.aaa_eap_resp }
        ensures abort { (v : Values) → Stands self.old v → result.abort ≡ v.aaa_abort }
        ensures gone { (v : Values) → Stands self.old v → result.gone ≡ v.gone }
        ensures cleared { (v : Values) → Stands self.old v → Stands self.new (cleared v) }
        ensures told { result ≡ wants_of self.old }
        ensures rests { Rests self.old self.new }
    {
        let wants = flags(self);
        clear(self);
        wants
    }

    /// The identity, of at most 253 octets, and the response that is for the server, of at most
    /// 1,500, which is there while the server is asked; else they are empty, as they are once the
    /// session ends.
    pub fn asked(&self) -> (&[u8], &[u8])
        ensures identity { (v : Values) → Stands self.now v → ShowsIdentity v result.0.now }
        ensures response { (v : Values) → Stands self.now v → ShowsResponse v result.1.now }
        ensures named { Named self.now → is_server self.now ≡ true → 1 ≤ length result.0.now }
        ensures short { (length result.0.now ≤ 253) × (length result.1.now ≤ 1500) }
    {
        (identity(self), response(self))
    }

    /// The times of reauthentication, as a grant or a change of the session sets them (RFC 2865,
    /// 5.27; RFC 5176, 3.6): after `reauth` seconds, or as the settings say where that is 0.
    pub fn set_times(&mut self, reauth: u32)
        ensures times { SetsTimes reauth self.old self.new }
        ensures leaves { Leaves self.old self.new }
    {
        retime(self, reauth);
    }
}
