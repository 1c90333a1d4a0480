ghost use Rattle.std.specs.Prelude.{◌≡◌, ◌≤◌, ◌<◌, ◌+◌, ◌^◌, false};
ghost use Rattle.out_tray.specs.Tray.{frame_room, spare};
ghost use Rattle.typed_session.specs.Moves.{asked_anew, asked_by, end_by, identity_asked, is_tired, kept_by, round_by};
ghost use Rattle.typed_session.specs.Follows.{SaysBy, SaysFrom};

use crate::common::{fill, next_id};
use crate::host::{Asked, Closed, Common, Host};
use crate::read::common;
use arrayvec::ArrayVec;
use out_tray::Tray;

impl Asked {
    // The identity is asked for, under the identifier after `id`.
    fn ask_identity(&mut self, id: u8, status: bool, tries: u32, tray: &mut Tray)
        requires { frame_room ≤ spare tray.old }
        ensures asked { self.new ≡ asked_anew (record self.old.common { id = id }) status tries }
        ensures sent { SaysFrom self.old.common
            (identity_asked (record self.old.common { id = id }) status tries) tray.old tray.new }
        ensures room { spare tray.old ≤ spare tray.new + frame_room }
    {
        let id = next_id(id);
        let packet = [1, id, 0, 5, 1];
        self.common.send(&packet, tray);
        self.common.id = id;
        self.status = status;
        self.tries = tries;
        self.sent = 0;
        self.wait = 10;
        self.method = 0;
        self.local = true;
        self.due = false;
        fill(&mut self.request, &packet);
    }
}

// A host of which no more than this is known.
pub(crate) fn blank(common: Common) -> Asked
    ensures { result.common ≡ common }
{
    Asked {
        common,
        status: false,
        tries: 0,
        sent: 0,
        wait: 0,
        method: 0,
        local: true,
        due: false,
        request: ArrayVec::new(),
    }
}

// The identity is asked for, under the identifier after `id`. A host that was asked before is changed
// in place, without a value of its size.
fn ask_identity(host: &mut Host, id: u8, status: bool, tries: u32, tray: &mut Tray)
    requires { frame_room ≤ spare tray.old }
    ensures host { host.new ≡ (asked_by (kept_by host.old) id status tries host.old).host }
    ensures sent { SaysBy (kept_by host.old) (asked_by (kept_by host.old) id status tries host.old)
        tray.old tray.new }
    ensures room { spare tray.old ≤ spare tray.new + frame_room }
{
    match host {
        Host::Request(a) => a.ask_identity(id, status, tries, tray),
        _ => ask_other(host, id, status, tries, tray),
    }
}

// The same, from another state.
fn ask_other(host: &mut Host, id: u8, status: bool, tries: u32, tray: &mut Tray)
    requires { frame_room ≤ spare tray.old }
    ensures host { host.new ≡ (asked_by (kept_by host.old) id status tries host.old).host }
    ensures sent { SaysBy (kept_by host.old) (asked_by (kept_by host.old) id status tries host.old)
        tray.old tray.new }
    ensures room { spare tray.old ≤ spare tray.new + frame_room }
{
    if let Some(common) = common(host) {
        let mut asked = blank(common.copy());
        asked.ask_identity(id, status, tries, tray);
        *host = Host::Request(asked);
    }
}

// The session ends, without a word.
fn end(host: &mut Host)
    ensures { host.new ≡ (end_by (kept_by host.old) host.old).host }
{
    if let Some(common) = common(host) {
        let closed = Closed {
            id: next_id(common.id),
            ask: common.ask,
            abort: common.abort,
        };
        *host = Host::Ended(closed);
    }
}

// Whether to ask once more would be too often.
fn is_tired(common: &Common, tries: u32) -> bool
    ensures value { result ≡ is_tired common.now tries }
    ensures room { result ≡ false → tries + 1 < 2 ^ 32 }
{
    tries >= common.times.reauth_max
}

// The identity is asked for once more. After a Logoff, or where that would be too often, the host
// is shut out and asked as if for the first time, under the second identifier from now; a host that
// was shut out before and has not begun anew is given up.
pub(crate) fn new_round(
    host: &mut Host,
    status: bool,
    start: bool,
    logoff: bool,
    tries: u32,
    tray: &mut Tray,
)
    requires { frame_room ≤ spare tray.old }
    ensures host { host.new
        ≡ (round_by (kept_by host.old) status start logoff tries host.old).host }
    ensures sent { SaysBy (kept_by host.old)
        (round_by (kept_by host.old) status start logoff tries host.old) tray.old tray.new }
    ensures room { spare tray.old ≤ spare tray.new + frame_room }
{
    let Some(common) = common(host) else {
        return;
    };
    let id = common.id;
    let tired = is_tired(common, tries);
    if !logoff && !tired {
        ask_identity(host, id, status, tries + 1, tray);
    } else if !status && !start && tired {
        end(host);
    } else {
        ask_identity(host, next_id(id), false, 1, tray);
    }
}
