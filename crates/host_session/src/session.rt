ghost use Rattle.std.specs.Prelude.{◌≡◌, ◌&&◌, not, if◌then◌else◌};
ghost use Rattle.switch_defs.specs.Switch.{Standing};
ghost use Rattle.host_session.specs.Sits.{SitsAs};
ghost use Rattle.host_session.specs.Settles.{IsLeft};

use arrayvec::ArrayVec;
use machine_vars::Wants;
use typed_session::Host;

/// What is kept of a session.
#[derive(Drop)]
pub struct Session {
    /// Its number, from 1 on.
    pub number: u32,
    /// The machines of its host.
    pub host: Host,
    /// The VLAN of its host where it is Authorized, 1 to 4094.
    pub vlan: u16,
    /// The State of the server's last Challenge, which the next request has (RFC 2865, 5.24).
    pub state: Option<ArrayVec<u8, 253>>,
    /// In how many seconds it ends; 0 for never (RFC 2865, 5.27).
    pub end_while: u32,
    /// Whether the server rejected its host, and it was neither let in nor logged off since.
    pub restricted: bool,
}

impl Session {
    // After its machines were settled: a host that is not Authorized has no end to wait for, and one
    // that is was not rejected. What is wanted of the server's side counts as done from then on.
    pub(crate) fn rest(&mut self) -> Wants
        ensures left { (x : Standing) → SitsAs self.old x → IsLeft x self.new result }
        ensures number { self.new.number ≡ self.old.number }
    {
        let wants = self.host.wants();
        let authorised = self.host.authorised();
        self.end_while = still(authorised, self.end_while);
        self.restricted = still_rejected(authorised, self.restricted);
        wants
    }
}

// How long until the end of a session whose host is Authorized or not.
fn still(authorised: bool, end_while: u32) -> u32
    ensures { result ≡ (if authorised then end_while else 0) }
{
    if authorised { end_while } else { 0 }
}

// Whether a host that is Authorized or not is one that was rejected.
fn still_rejected(authorised: bool, rejected: bool) -> bool
    ensures { result ≡ (not authorised && rejected) }
{
    !authorised && rejected
}
