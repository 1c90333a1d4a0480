ghost use Rattle.machine_defs.specs.PaeTable.{pae_table};
ghost use Rattle.machine_defs.specs.BackendTable.{backend_table};
ghost use Rattle.machine_defs.specs.ReauthTable.{reauth_table};
ghost use Rattle.machine_defs.specs.EapTable.{eap_table};
ghost use Rattle.port_machine.specs.Laws.{AnswersLeast, AnswersNone};

/// A step of each machine takes the first enabled row of its table: that is its enabled row of least
/// number, and where a step answers `None` no row is enabled and nothing was changed. No row is enabled
/// once the session is gone.
pub fn steps_take_the_row_of_least_number()
    ensures port_access { AnswersLeast pae_table }
    ensures backend { AnswersLeast backend_table }
    ensures reauthentication { AnswersLeast reauth_table }
    ensures pass_through { AnswersLeast eap_table }
    ensures no_port_access { AnswersNone pae_table }
    ensures no_backend { AnswersNone backend_table }
    ensures no_reauthentication { AnswersNone reauth_table }
    ensures no_pass_through { AnswersNone eap_table }
{}
