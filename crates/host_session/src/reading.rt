//! What a session shows: to the server's side, to dynamic requests, and to those that forward frames.

ghost use Rattle.std.specs.Prelude.{◌≡◌, ◌≤◌, ◌+◌, [], ◌∷◌, false, length, IfSome, Some};
ghost use Rattle.machine_vars.specs.declared.states.EapState.TheVariants.{AaaIdle};
ghost use Rattle.out_tray.specs.Tray.{spare};
ghost use Rattle.radius_packet.specs.Views.{value_in};
ghost use Rattle.typed_session.specs.Follows.{with_sent};
ghost use Rattle.switch_defs.specs.Switch.{Standing, Session as Known};
ghost use Rattle.switch_defs.specs.Decide.{right_by};
ghost use Rattle.switch_defs.specs.Dynamic.{say_failure, some_octets};
ghost use Rattle.aaa_defs.specs.Request.{IsAsk};
ghost use Rattle.aaa_defs.specs.Request as request;
ghost use Rattle.host_session.specs.Shows.{is_aaa_idle};
ghost use Rattle.host_session.specs.Sits.{SitsAs, right_in, state_in};

use crate::session::Session;
use aaa_client::Ask;
use out_tray::Tray;
use typed_session::Host;
use wire_core::Mac;

impl Session {
    /// Whether its host is Authorized: authPortStatus.
    pub fn authorised(&self) -> bool
        ensures { (x : Standing) → SitsAs self.now x → result ≡ x.vars.auth_port_status }
    {
        self.host.authorised()
    }

    /// The number of the session and the VLAN that its host is forwarded into, where the restricted VLAN
    /// of its port is this, or 0 for none (IEEE Std 802.1X-2004, 8.2.2.2).
    pub fn right(&self, restricted: u16) -> Option<(u32, u16)>
        ensures { (y : Known) → SitsAs self.now y.standing → self.now.number ≡ y.host.number →
            right_in result ≡ right_by restricted y }
    {
        if self.authorised() {
            Some((self.number, self.vlan))
        } else if self.restricted && restricted != 0 {
            Some((self.number, restricted))
        } else {
            None
        }
    }

    /// Whether the server is asked about its host, and its answer waited for: AAA_IDLE (RFC 4137, 7.2).
    pub fn is_asking(&self) -> bool
        ensures { (x : Standing) → SitsAs self.now x → result ≡ is_aaa_idle x.vars.eap }
    {
        matches!(self.host, Host::Server(_))
    }

    /// The identity that its host gave, 1 to 253 octets, of a session that goes on.
    pub fn identity(&self) -> Option<&[u8]>
        ensures value { (x : Standing) → SitsAs self.now x → x.vars.gone ≡ false →
            value_in result ≡ some_octets x.vars.identity.items }
        ensures short { IfSome result (λ octets. length octets.now ≤ 253) }
    {
        let identity = self.host.asked().0;
        if identity.is_empty() {
            None
        } else {
            Some(identity)
        }
    }

    /// What the server is asked about its host, `peer` on `port` with the address `own`, where it is
    /// to be asked (RFC 3580, 3).
    pub fn question(&self, port: u8, own: Mac, peer: Mac) -> Ask<'_>
        ensures question { (x : Standing) → SitsAs self.now x → x.vars.eap ≡ AaaIdle →
            result ≡ record {
              port = port;
              own = own.0;
              peer = peer.0;
              identity = x.vars.identity.items;
              state = x.state;
              eap = x.vars.eap_resp_data.items;
            } }
        ensures ask { 1 ≤ length result.identity → IsAsk result }
    {
        let (identity, eap) = self.host.asked();
        Ask {
            port,
            own,
            peer,
            identity,
            state: state(self),
            eap,
        }
    }

    /// Tells its host that it is let go (RFC 3748, 4.2). It takes 38 octets of the tray, which must be
    /// spare.
    pub fn say_failure(&self, tray: &mut Tray)
        requires { 38 ≤ spare tray.old }
        ensures sent { (x : Standing) → SitsAs self.now x → x.vars.gone ≡ false →
            tray.new ≡ with_sent (say_failure x ∷ []) tray.old }
        ensures room { spare tray.old ≤ spare tray.new + 38 }
    {
        if let Some(common) = self.host.common() {
            let failure = [4, common.id, 0, 4];
            eap_frames::put(
                common.port,
                Mac(common.own),
                Mac(common.peer),
                &failure,
                tray,
            );
        }
    }
}

// The State of the server's last Challenge.
fn state(session: &Session) -> Option<&[u8]>
    ensures value { value_in result ≡ state_in session.now.state }
    ensures short { IfSome result (λ octets. length octets.now ≤ 253) }
{
    match &session.state {
        Some(state) => Some(state.as_slice()),
        None => None,
    }
}
