// What each state does as it is entered (IEEE Std 802.1X-2004, 8.2.4).

ghost use Rattle.std.specs.Prelude.{◌≡◌, ◌<◌};
ghost use Rattle.machine_defs.specs.PaeTable.{initialize, disconnected, restart, connecting, authenticating, authenticated, aborting, held, force_auth, force_unauth};

use machine_vars::{Control, Pae, Vars};

pub(crate) fn enter_initialize(v: &mut Vars)
    ensures { v.new ≡ initialize v.old }
{
    v.pae = Pae::Initialize;
    v.port_mode = Control::Auto;
}

pub(crate) fn enter_disconnected(v: &mut Vars)
    ensures { v.new ≡ disconnected v.old }
{
    v.pae = Pae::Disconnected;
    v.auth_port_status = false;
    v.re_auth_count = 0;
    v.eapol_logoff = false;
}

pub(crate) fn enter_restart(v: &mut Vars)
    ensures { v.new ≡ restart v.old }
{
    v.pae = Pae::Restart;
    v.eap_restart = true;
}

pub(crate) fn enter_connecting(v: &mut Vars)
    requires { v.old.re_auth_count < 4294967295 }
    ensures { v.new ≡ connecting v.old }
{
    v.pae = Pae::Connecting;
    v.re_authenticate = false;
    v.re_auth_count += 1;
}

pub(crate) fn enter_authenticating(v: &mut Vars)
    ensures { v.new ≡ authenticating v.old }
{
    v.pae = Pae::Authenticating;
    v.eapol_start = false;
    v.auth_success = false;
    v.auth_fail = false;
    v.auth_timeout = false;
    v.key_run = false;
    v.key_done = false;
    v.auth_start = true;
}

pub(crate) fn enter_authenticated(v: &mut Vars)
    ensures { v.new ≡ authenticated v.old }
{
    v.pae = Pae::Authenticated;
    v.auth_port_status = true;
    v.re_auth_count = 0;
}

pub(crate) fn enter_aborting(v: &mut Vars)
    ensures { v.new ≡ aborting v.old }
{
    v.pae = Pae::Aborting;
    v.auth_abort = true;
    v.key_run = false;
    v.key_done = false;
}

pub(crate) fn enter_held(v: &mut Vars)
    ensures { v.new ≡ held v.old }
{
    v.pae = Pae::Held;
    v.auth_port_status = false;
    v.quiet_while = v.times.quiet;
    v.eapol_logoff = false;
}

pub(crate) fn enter_force_auth(v: &mut Vars)
    ensures { v.new ≡ force_auth v.old }
{
    v.pae = Pae::ForceAuth;
    v.auth_port_status = true;
    v.port_mode = Control::ForceAuth;
    v.eapol_start = false;
}

pub(crate) fn enter_force_unauth(v: &mut Vars)
    ensures { v.new ≡ force_unauth v.old }
{
    v.pae = Pae::ForceUnauth;
    v.auth_port_status = false;
    v.port_mode = Control::ForceUnauth;
    v.eapol_start = false;
}
