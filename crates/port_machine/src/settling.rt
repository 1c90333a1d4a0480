ghost use Rattle.std.specs.Prelude.{◌≡◌, ◌<◌, ◌≤◌, ◌+◌, [], ◌∷◌, ◌++◌, ℕ, List, Some, None, true, length};
ghost use Rattle.machine_defs.specs.Settling.{TakesNext, Settles, next};
ghost use Rattle.machine_defs.specs.Live.{Ready, Live};
ghost use Rattle.machine_defs.specs.Settled.{Settled};
ghost use Rattle.machine_vars.specs.declared.states.Row.{Row as RowValue};
ghost use Rattle.out_tray.specs.Tray.{frame_room, spare, turn_room};
ghost use Rattle.switch_event.specs.Frames.{frames};
ghost use Rattle.port_machine.specs.Sends.{sent_by};

use machine_vars::{Row, Vars};
use out_tray::Tray;
use wire_core::Mac;

/// Takes rows until none is enabled, puts the frame of each packet that a row sends into the tray, in
/// order, and answers the number of rows, fewer than 48. The value may be settled where
/// [`crate::fresh`] made it, or where it is a settled one in which one event was set; the tray has
/// 80,000 octets spare, of which at most 72,098 are taken: 47 frames of 1,518 octets, and 16 beside
/// each. The value afterwards is one of the nine settled combinations. No memory.
pub fn settle(v: &mut Vars, tray: &mut Tray) -> u32
    requires ready { Ready v.old }
    requires room { turn_room ≤ spare tray.old }
    ensures chain { (rows : List RowValue) × (sent : List (List ℕ)) × Settles v.old rows sent v.new
        × (length rows ≡ result)
        × (tray.new ≡ record tray.old { items = tray.old.items ++ frames v.old sent }) }
    ensures bound { result < 48 }
    ensures live { Live v.new }
    ensures settled { next v.new ≡ None }
    ensures combination { Settled v.new }
    ensures room { spare tray.old ≤ spare tray.new + 72098 }
{
    let mut rows = 0;
    'rows: while let Some(row) = next_row(v) {
        send(row, v, tray);
        rows += 1;
    }
    rows
}

// Takes the next row in the order in which the machines are looked through.
pub(crate) fn next_row(v: &mut Vars) -> Option<Row>
    requires tries { v.old.re_auth_count < 4294967295 }
    requires again { v.old.retrans_count < 4294967295 }
    requires packet { v.old.aaa_eap_req ≡ true → 1 < length v.old.aaa_eap_req_data.items }
    ensures { TakesNext v.old result v.new }
{
    if let Some(row) = authenticator_pae::step(v) {
        return Some(row);
    }
    if let Some(row) = backend_pae::step(v) {
        return Some(row);
    }
    if let Some(row) = reauth_timer::step(v) {
        return Some(row);
    }
    eap_passthrough::step(v)
}

// Sends what the row that was taken sends.
fn send(row: Row, v: &Vars, tray: &mut Tray)
    requires { frame_room ≤ spare tray.old }
    ensures sent { tray.new ≡ record tray.old { items = tray.old.items ++ frames v.now (sent_by row v.now) } }
    ensures room { spare tray.old ≤ spare tray.new + frame_room }
{
    match row {
        Row::P(2 | 17) => put(v, &[3, v.current_id, 0, 4], tray),
        Row::P(3 | 18) => put(v, &[4, v.current_id, 0, 4], tray),
        Row::B(3 | 5 | 12 | 13) => put(v, v.aaa_eap_req_data.as_slice(), tray),
        Row::B(4 | 7 | 10) => put(v, v.last_req_data.as_slice(), tray),
        _ => {}
    }
}

fn put(v: &Vars, eap: &[u8], tray: &mut Tray)
    requires short { length eap.now ≤ 1500 }
    requires spare { frame_room ≤ spare tray.old }
    ensures sent { tray.new ≡ record tray.old { items = tray.old.items ++ frames v.now (eap.now ∷ []) } }
    ensures room { spare tray.old ≤ spare tray.new + frame_room }
{
    eap_frames::put(v.port, Mac(v.own), Mac(v.peer), eap, tray);
}
