ghost use Rattle.std.specs.Prelude.{◌≡◌, ◌≤◌, ◌+◌};
ghost use Rattle.out_tray.specs.Tray.{answer_room, spare};
ghost use Rattle.typed_session.specs.Reads.{after_verdict, IsTold};
ghost use Rattle.typed_session.specs.Follows.{Says};

use crate::host::Host;
use crate::read::known;
use crate::server::{accept, challenge, notice, refuse};
use crate::times::{period, wanted};
use machine_vars::Verdict;
use out_tray::Tray;

// An answer of the server. Without a packet an Accept and a Reject carry the plain Success and
// Failure of EAP (RFC 3748, 4.2).
pub(crate) fn tell(host: &mut Host, word: &Verdict<'_>, tray: &mut Tray)
    requires word { IsTold word.now }
    requires spare { answer_room ≤ spare tray.old }
    ensures host { host.new ≡ (after_verdict word.now host.old).host }
    ensures sent { Says host.old (after_verdict word.now host.old) tray.old tray.new }
    ensures room { spare tray.old ≤ spare tray.new + answer_room }
{
    let Some(known) = known(host) else {
        return;
    };
    match *word {
        Verdict::Challenge { eap, wait } => challenge(host, eap, wait, tray),
        Verdict::Notice => notice(host),
        Verdict::Accept {
            eap,
            timeout_reauth,
        } => {
            let again = wanted(timeout_reauth, &known.times);
            let period = period(timeout_reauth, &known.times);
            match eap {
                Some(eap) => accept(host, eap, again, period, tray),
                None => accept(host, &[3, known.id, 0, 4], again, period, tray),
            }
        }
        Verdict::Reject { eap: Some(eap) } => refuse(host, eap, tray),
        Verdict::Reject { eap: None } => refuse(host, &[4, known.id, 0, 4], tray),
    }
}
