//! The reauthentication timer machine: when an authorized host is authenticated again (IEEE Std
//! 802.1X-2004, 8.2).
#![tactic(auto)]

ghost use Rattle.std.specs.Prelude.{◌≡◌, Some, None};
ghost use Rattle.machine_defs.specs.Table.{TakesFirst};
ghost use Rattle.machine_defs.specs.ReauthTable.{reauth_table};

use machine_vars::{Control, Reauth, Row, Vars};

/// Takes the enabled row of least number of the timer's table, A1 to A3, and names it. `None` comes
/// exactly where none of its rows is enabled, as once the session is gone; nothing is changed then.
pub fn step(v: &mut Vars) -> Option<Row>
    ensures { TakesFirst reauth_table v.old result v.new }
{
    if v.gone {
        return None;
    }
    let stops = v.port_control != Control::Auto
        || v.initialize
        || !v.auth_port_status
        || !v.re_auth_enabled;
    match v.reauth {
        Reauth::Initialize => {
            if stops || v.re_auth_when > 0 {
                return None;
            }
            v.reauth = Reauth::Reauthenticate;
            v.re_authenticate = true;
            Some(Row::A(2))
        }
        Reauth::Reauthenticate => {
            v.reauth = Reauth::Initialize;
            v.re_auth_when = v.re_auth_period;
            Some(if stops { Row::A(1) } else { Row::A(3) })
        }
    }
}
