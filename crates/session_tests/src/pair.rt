ghost use Rattle.std.specs.Prelude.{◌≡◌, true};
ghost use Rattle.machine_defs.specs.Live.{InRange};
ghost use Rattle.typed_session.specs.Reads.{IsCarried, IsTold};

use machine_vars::{Control, Pae, Times, Vars, Wants};
use out_tray::{Sent, Tray};
use port_machine::{
    accept, acknowledge, challenge, change, fresh, log_off, notice, receive, reject, second,
    settle, start,
};
use std::alloc::{AllocError, Global};
use std::marker::Model;
use typed_session::{Host, Verdict, open};
use wire_core::Mac;

// What may come to a session.
#[derive(Clone, Copy)]
pub(crate) enum Step<'a> {
    Start,
    Logoff,
    Eap(&'a [u8]),
    Told(Verdict<'a>),
    Second { gave_up: bool },
    Times { reauth: u32 },
}

// The variables of a session, the typed session, and the tray of each.
#[derive(Drop)]
pub(crate) struct Pair {
    pub(crate) v: Vars,
    pub(crate) host: Host,
    one: Tray,
    pub(crate) two: Tray,
    // How many rows of the machines were taken last.
    pub(crate) rows: u32,
}

impl Model for Pair {
    ghost use Rattle.machine_vars.specs.declared.vars.Vars.{Vars as Values};
    ghost use Rattle.machine_defs.specs.Live.{Live};

    ghost Value = { Values };

    ghost view = { λ p. p.v };

    ghost invariant = { λ p. Live p.v };
}

impl Pair {
    // A session of the host `peer` on port 1, with both trays as its opening left them.
    pub(crate) fn open(alloc: Global, peer: Mac, times: &Times) -> Result<Pair, AllocError>
        requires { InRange times.now }
    {
        let mut one = Tray::open(alloc, 1)?;
        let mut two = Tray::open(alloc, 1)?;
        let own = Mac([0x02, 0x00, 0x00, 0x01, 0x01, 0x01]);
        let mut v = fresh(1, own, peer, Control::Auto, times);
        let rows = settle(&mut v, &mut one);
        let host = open(1, own, peer, times, &mut two);
        Ok(Pair {
            v,
            host,
            one,
            two,
            rows,
        })
    }

    // The event comes to both, and what is wanted of the server counts as done. Whether both look
    // alike.
    pub(crate) fn takes(&mut self, step: Step<'_>) -> bool {
        self.hands(step) && self.looks_alike()
    }

    // The event comes to both. False where it is none that may come.
    fn hands(&mut self, step: Step<'_>) -> bool {
        match step {
            Step::Start => self.starts(),
            Step::Logoff => self.logs_off(),
            Step::Eap(eap) => self.responds(eap),
            Step::Told(verdict) => self.is_told(&verdict),
            Step::Second { gave_up } => self.ages(gave_up),
            Step::Times { reauth } => self.is_changed(reauth),
        }
    }

    #[tactic(auto, using(crate::proofs::Ready::may_be_settled))]
    fn starts(&mut self) -> bool {
        self.one.clear();
        self.two.clear();
        start(&mut self.v);
        self.rows = settle(&mut self.v, &mut self.one);
        self.host.on_start(&mut self.two);
        true
    }

    #[tactic(auto, using(crate::proofs::Ready::may_be_settled))]
    fn logs_off(&mut self) -> bool {
        self.one.clear();
        self.two.clear();
        log_off(&mut self.v);
        self.rows = settle(&mut self.v, &mut self.one);
        self.host.on_logoff(&mut self.two);
        true
    }

    #[tactic(auto, using(crate::proofs::Ready::may_be_settled))]
    fn responds(&mut self, eap: &[u8]) -> bool {
        self.one.clear();
        self.two.clear();
        if eap.len() > 1500 {
            return false;
        }
        receive(&mut self.v, eap);
        self.rows = settle(&mut self.v, &mut self.one);
        self.host.on_eap(eap, &mut self.two);
        true
    }

    fn is_told(&mut self, verdict: &Verdict<'_>) -> bool {
        if !is_told(verdict) || !self.hears(verdict) {
            return false;
        }
        self.two.clear();
        self.host.on_server(verdict, &mut self.two);
        true
    }

    #[tactic(auto, using(crate::proofs::Ready::may_be_settled))]
    fn ages(&mut self, gave_up: bool) -> bool {
        self.one.clear();
        self.two.clear();
        second(&mut self.v, gave_up);
        self.rows = settle(&mut self.v, &mut self.one);
        self.host.on_second(gave_up, &mut self.two);
        true
    }

    #[tactic(auto, using(crate::proofs::Ready::may_be_settled))]
    fn is_changed(&mut self, reauth: u32) -> bool {
        self.one.clear();
        self.two.clear();
        self.rows = settle(&mut self.v, &mut self.one);
        let (again, period) = self.times(reauth);
        if period == 0 {
            return false;
        }
        change(&mut self.v, again, period);
        self.host.set_times(reauth);
        true
    }

    // An answer of the server comes to the variables. Without a packet an Accept and a Reject carry
    // the plain Success and Failure (RFC 3748, 4.2).
    fn hears(&mut self, verdict: &Verdict<'_>) -> bool {
        let success = [3, self.v.current_id, 0, 4];
        let failure = [4, self.v.current_id, 0, 4];
        match *verdict {
            Verdict::Challenge { eap, wait } => self.is_challenged(eap, wait),
            Verdict::Notice => self.is_noticed(),
            Verdict::Accept {
                eap,
                timeout_reauth,
            } => self.is_accepted(eap.unwrap_or(success.as_slice()), timeout_reauth),
            Verdict::Reject { eap } => self.is_rejected(eap.unwrap_or(failure.as_slice())),
        }
    }

    #[tactic(auto, using(crate::proofs::Ready::may_be_settled))]
    fn is_challenged(&mut self, eap: &[u8], wait: u32) -> bool {
        self.one.clear();
        if !is_carried(eap) {
            return false;
        }
        challenge(&mut self.v, eap, wait);
        self.rows = settle(&mut self.v, &mut self.one);
        true
    }

    #[tactic(auto, using(crate::proofs::Ready::may_be_settled))]
    fn is_noticed(&mut self) -> bool {
        self.one.clear();
        notice(&mut self.v);
        self.rows = settle(&mut self.v, &mut self.one);
        true
    }

    #[tactic(auto, using(crate::proofs::Ready::may_be_settled))]
    fn is_accepted(&mut self, eap: &[u8], timeout_reauth: u32) -> bool {
        self.one.clear();
        let (again, period) = self.times(timeout_reauth);
        if !is_carried(eap) || period == 0 {
            return false;
        }
        accept(&mut self.v, eap, again, period);
        self.rows = settle(&mut self.v, &mut self.one);
        true
    }

    #[tactic(auto, using(crate::proofs::Ready::may_be_settled))]
    fn is_rejected(&mut self, eap: &[u8]) -> bool {
        self.one.clear();
        if !is_carried(eap) {
            return false;
        }
        reject(&mut self.v, eap);
        self.rows = settle(&mut self.v, &mut self.one);
        true
    }

    // Whether the host is authenticated again, and after how many seconds: as the server says, or
    // where it gave none as the settings say.
    fn times(&self, reauth: u32) -> (bool, u32) {
        if reauth == 0 {
            (self.v.times.reauth, self.v.times.reauth_period)
        } else {
            (true, reauth)
        }
    }

    // Whether both sent the same frames, want the same and show the same.
    fn looks_alike(&mut self) -> bool {
        let wants = self.host.wants();
        let same = self.wants_alike(wants) && self.shows_alike(wants.ask);
        self.acknowledge();
        same && are_alike(&self.one, &self.two)
    }

    fn wants_alike(&self, wants: Wants) -> bool {
        wants.ask == self.v.aaa_eap_resp
            && wants.abort == self.v.aaa_abort
            && wants.gone == self.v.gone
    }

    fn shows_alike(&self, asks: bool) -> bool {
        let (identity, response) = self.host.asked();
        self.host.authorised() == self.v.auth_port_status
            && self.host.id() == self.v.current_id
            && self.host.held() == (self.v.pae == Pae::Held)
            && (self.v.gone || identity == self.v.identity.as_slice())
            && (!asks || response == self.v.eap_resp_data.as_slice())
    }

    fn acknowledge(&mut self) {
        acknowledge(&mut self.v);
    }
}

// Whether an EAP packet has an identifier, and a frame can carry it.
fn is_carried(eap: &[u8]) -> bool
    ensures { result ≡ true → IsCarried eap.now }
{
    2 <= eap.len() && eap.len() <= 1500
}

fn is_told(verdict: &Verdict<'_>) -> bool
    ensures { result ≡ true → IsTold verdict.now }
{
    match *verdict {
        Verdict::Challenge { eap, .. } => is_carried(eap),
        Verdict::Accept { eap: Some(eap), .. } => is_carried(eap),
        Verdict::Reject { eap: Some(eap) } => is_carried(eap),
        _ => true,
    }
}

// Whether the trays hold the same frames.
fn are_alike(one: &Tray, two: &Tray) -> bool {
    if one.len() != two.len() {
        return false;
    }
    for n in 0..one.len() {
        let same = match (one.item(n), two.item(n)) {
            (
                Some(Sent::Frame { port, octets }),
                Some(
                    Sent::Frame {
                        port: other,
                        octets: others,
                    },
                ),
            ) => port == other && octets == others,
            _ => false,
        };
        if !same {
            return false;
        }
    }
    true
}
