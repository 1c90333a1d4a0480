ghost use Rattle.std.specs.Prelude.{◌≡◌, ◌<◌, Some, None, true, false};
ghost use Rattle.machine_defs.specs.Table.{TakesFirst};
ghost use Rattle.machine_defs.specs.PaeTable.{pae_table, no_global};
ghost use Rattle.machine_vars.specs.declared.states.Pae.TheVariants.{Connecting, Authenticating, Authenticated, Aborting};

use crate::entry::{
    enter_aborting, enter_authenticated, enter_authenticating, enter_connecting,
    enter_disconnected, enter_force_auth, enter_force_unauth, enter_held, enter_initialize,
    enter_restart,
};
use machine_vars::{Control, Pae, Row, Vars};

/// Takes the enabled row of least number of the port access entity's table, P1 to P18, and names it
/// (IEEE Std 802.1X-2004, 8.2.4). `None` comes exactly where none of its rows is enabled, as once the
/// session is gone; nothing is changed then. A packet that the row sends is for the caller to send.
pub fn step(v: &mut Vars) -> Option<Row>
    requires { v.old.re_auth_count < 4294967295 }
    ensures { TakesFirst pae_table v.old result v.new }
{
    if v.gone {
        return None;
    }
    if v.initialize
        || !v.port_enabled
        || v.port_control == Control::Auto && v.port_mode != Control::Auto
    {
        if v.pae != Pae::Initialize || v.port_mode != Control::Auto {
            enter_initialize(v);
            return Some(Row::P(1));
        }
        return None;
    }
    if v.port_control == Control::ForceAuth && v.port_mode != Control::ForceAuth {
        enter_force_auth(v);
        return Some(Row::P(2));
    }
    if v.port_control == Control::ForceUnauth && v.port_mode != Control::ForceUnauth {
        enter_force_unauth(v);
        return Some(Row::P(3));
    }
    from_state(v)
}

// A row from the machine's state, where no row from any state is due.
fn from_state(v: &mut Vars) -> Option<Row>
    requires going { v.old.gone ≡ false }
    requires calm { no_global v.old ≡ true }
    requires count { v.old.re_auth_count < 4294967295 }
    ensures { TakesFirst pae_table v.old result v.new }
{
    match v.pae {
        Pae::Initialize => {
            enter_disconnected(v);
            Some(Row::P(4))
        }
        Pae::Disconnected => {
            enter_restart(v);
            Some(Row::P(5))
        }
        Pae::Restart if !v.eap_restart => {
            enter_connecting(v);
            Some(Row::P(6))
        }
        Pae::Connecting => from_connecting(v),
        Pae::Authenticating => from_authenticating(v),
        Pae::Authenticated => from_authenticated(v),
        Pae::Aborting => from_aborting(v),
        Pae::Held if v.quiet_while == 0 => {
            enter_restart(v);
            Some(Row::P(16))
        }
        Pae::ForceAuth if v.eapol_start => {
            enter_force_auth(v);
            Some(Row::P(17))
        }
        Pae::ForceUnauth if v.eapol_start => {
            enter_force_unauth(v);
            Some(Row::P(18))
        }
        Pae::Restart | Pae::Held | Pae::ForceAuth | Pae::ForceUnauth => None,
    }
}

fn from_connecting(v: &mut Vars) -> Option<Row>
    requires going { v.old.gone ≡ false }
    requires calm { no_global v.old ≡ true }
    requires state { v.old.pae ≡ Connecting }
    ensures { TakesFirst pae_table v.old result v.new }
{
    let tired = v.re_auth_count > v.times.reauth_max;
    if v.eapol_logoff || tired {
        // An unauthorized host that was asked too often and does not begin anew is given up.
        if tired && !v.auth_port_status && !v.eapol_start {
            v.gone = true;
        }
        enter_disconnected(v);
        return Some(Row::P(7));
    }
    if v.eap_req || v.eap_success || v.eap_fail {
        enter_authenticating(v);
        return Some(Row::P(8));
    }
    None
}

fn from_authenticating(v: &mut Vars) -> Option<Row>
    requires going { v.old.gone ≡ false }
    requires calm { no_global v.old ≡ true }
    requires state { v.old.pae ≡ Authenticating }
    ensures { TakesFirst pae_table v.old result v.new }
{
    if v.auth_success && v.port_valid {
        enter_authenticated(v);
        return Some(Row::P(9));
    }
    if v.auth_fail || v.key_done && !v.port_valid {
        enter_held(v);
        return Some(Row::P(10));
    }
    if v.eapol_start || v.eapol_logoff || v.auth_timeout {
        enter_aborting(v);
        return Some(Row::P(11));
    }
    None
}

fn from_authenticated(v: &mut Vars) -> Option<Row>
    requires going { v.old.gone ≡ false }
    requires calm { no_global v.old ≡ true }
    requires state { v.old.pae ≡ Authenticated }
    ensures { TakesFirst pae_table v.old result v.new }
{
    if v.eapol_start || v.re_authenticate {
        enter_restart(v);
        return Some(Row::P(12));
    }
    if v.eapol_logoff || !v.port_valid {
        enter_disconnected(v);
        return Some(Row::P(13));
    }
    None
}

// The backend has to take authAbort back before this state is left.
fn from_aborting(v: &mut Vars) -> Option<Row>
    requires going { v.old.gone ≡ false }
    requires calm { no_global v.old ≡ true }
    requires state { v.old.pae ≡ Aborting }
    ensures { TakesFirst pae_table v.old result v.new }
{
    if v.auth_abort {
        return None;
    }
    if v.eapol_logoff {
        enter_disconnected(v);
        return Some(Row::P(14));
    }
    enter_restart(v);
    Some(Row::P(15))
}
