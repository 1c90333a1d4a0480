// The settings of a trace.
ghost use Rattle.std.specs.Prelude.{◌≡◌, ◌<◌, IfOk, false, true};
ghost use Rattle.wire_defs.specs.Text.{words};
ghost use Rattle.switch_event.specs.Config.{are_ports};
ghost use Rattle.trace_defs.specs.Line as defined;
ghost use Rattle.trace_defs.specs.declared.keyword.Timing.TheVariants.{QuietPeriod, ServerTimeout, ReauthMax, ReauthPeriod, Reauth, GuestWait, DynWindow, RequireMa};
ghost use Rattle.trace_lang.specs.Meaning.{Means, Notes, Sets, IsInPlace};

use crate::keyword::timing_of;
use crate::line::LineErr;
use crate::values::{
    control_choice, ip_of, name_of, number_of, port_of, secret_of, six_octets, switch_choice,
    thirty_two_octets, udp_port_of, vlan_of,
};
use crate::words::{first_word, one_word, three_words, two_words};
use switch_event::{Client, Config, Nas, PortConf};
use trace_defs::{
    BRIDGE, CLOCK, COUNT, DYN_WINDOW, GUEST_WAIT, HEX, Line, MISSING, MOST_CLIENTS, NAME, NAS,
    NUMBER, OtherVlan, PORT, QUIET_PERIOD, REAUTH, REAUTH_MAX, REAUTH_PERIOD, REQUIRE_MA, SEED,
    SERVER, SERVER_TIMEOUT, SettingWord, TWICE, Timing, WORD,
};
use wire_core::{Addr, Mac, decimal};

/// A setting by its first word and the text behind it.
pub fn read_setting(
    c: &mut Config,
    given: &mut u32,
    word: SettingWord,
    rest: &[u8],
) -> Result<Line, LineErr>
    requires ports { are_ports c.old.ports ≡ true }
    ensures reads { Sets (defined.setting_line c.old given.old word (words rest.now))
        c.old given.old c.new given.new result }
    ensures ports { are_ports c.new.ports ≡ true }
    ensures place { IfOk result (IsInPlace false) }
{
    match word {
        SettingWord::Bridge => read_bridge(c, given, rest),
        SettingWord::Nas => read_nas(c, given, rest),
        SettingWord::Server => read_server(c, given, rest),
        SettingWord::Client => read_client(c, *given, rest),
        SettingWord::Port => read_port(c, *given, rest),
        SettingWord::Restricted => read_vlan(OtherVlan::Restricted, c, *given, rest),
        SettingWord::Guest => read_vlan(OtherVlan::Guest, c, *given, rest),
        SettingWord::Set => read_set(c, given, rest),
        SettingWord::Clock => read_clock(c, given, rest),
        SettingWord::Seed => read_seed(c, given, rest),
        SettingWord::Begin => read_begin(*given, rest),
    }
}

// Notes a setting that is given once, by its bit.
fn note_once(given: &mut u32, setting: u32) -> Result<(), LineErr>
    requires { setting < 32 }
    ensures { Notes setting given.old given.new result }
{
    let bit = 1u32 << setting;
    if *given & bit != 0 {
        return Err(LineErr::Bad { why: TWICE });
    }
    *given |= bit;
    Ok(())
}

// `bridge ADDRESS`
fn read_bridge(c: &mut Config, given: &mut u32, rest: &[u8]) -> Result<Line, LineErr>
    ensures reads { Sets (defined.bridge_line c.old given.old (words rest.now))
        c.old given.old c.new given.new result }
    ensures ports { c.new.ports ≡ c.old.ports }
    ensures place { IfOk result (IsInPlace false) }
{
    let word = one_word(rest).ok_or(LineErr::Bad { why: COUNT })?;
    let bridge = six_octets(word).ok_or(LineErr::Bad { why: HEX })?;
    note_once(given, BRIDGE)?;
    c.bridge = Mac(bridge);
    Ok(Line::Setting)
}

// `nas IP NAME`
fn read_nas(c: &mut Config, given: &mut u32, rest: &[u8]) -> Result<Line, LineErr>
    ensures reads { Sets (defined.nas_line c.old given.old (words rest.now))
        c.old given.old c.new given.new result }
    ensures ports { c.new.ports ≡ c.old.ports }
    ensures place { IfOk result (IsInPlace false) }
{
    let (ip, name) = two_words(rest).ok_or(LineErr::Bad { why: COUNT })?;
    let ip = ip_of(ip).ok_or(LineErr::Bad { why: NUMBER })?;
    let name = name_of(name).ok_or(LineErr::Bad { why: NAME })?;
    note_once(given, NAS)?;
    c.nas = Nas { ip, name };
    Ok(Line::Setting)
}

// `server IP PORT SECRET`
fn read_server(c: &mut Config, given: &mut u32, rest: &[u8]) -> Result<Line, LineErr>
    ensures reads { Sets (defined.server_line c.old given.old (words rest.now))
        c.old given.old c.new given.new result }
    ensures ports { c.new.ports ≡ c.old.ports }
    ensures place { IfOk result (IsInPlace false) }
{
    let (ip, port, secret) = three_words(rest).ok_or(LineErr::Bad { why: COUNT })?;
    let ip = ip_of(ip).ok_or(LineErr::Bad { why: NUMBER })?;
    let port = udp_port_of(port, 1).ok_or(LineErr::Bad { why: NUMBER })?;
    let secret = secret_of(secret).ok_or(LineErr::Bad { why: HEX })?;
    note_once(given, SERVER)?;
    c.server = Addr { ip, port };
    c.secret = secret;
    Ok(Line::Setting)
}

// `client IP SECRET`, for at most four clients
fn read_client(c: &mut Config, given: u32, rest: &[u8]) -> Result<Line, LineErr>
    ensures reads { Sets (defined.client_line c.old given (words rest.now))
        c.old given c.new given result }
    ensures ports { c.new.ports ≡ c.old.ports }
    ensures place { IfOk result (IsInPlace false) }
{
    let (ip, secret) = two_words(rest).ok_or(LineErr::Bad { why: COUNT })?;
    let ip = ip_of(ip).ok_or(LineErr::Bad { why: NUMBER })?;
    let secret = secret_of(secret).ok_or(LineErr::Bad { why: HEX })?;
    if c.has_client(&ip) || c.clients.len() >= MOST_CLIENTS {
        return Err(LineErr::Bad { why: TWICE });
    }
    c.clients.push(Client { ip, secret });
    Ok(Line::Setting)
}

// `port NUMBER VLAN CONTROL`
fn read_port(c: &mut Config, given: u32, rest: &[u8]) -> Result<Line, LineErr>
    requires ports { are_ports c.old.ports ≡ true }
    ensures ports { are_ports c.new.ports ≡ true }
    ensures reads { Sets (defined.port_line c.old given (words rest.now))
        c.old given c.new given result }
    ensures place { IfOk result (IsInPlace false) }
{
    let (port, native, control) = three_words(rest).ok_or(LineErr::Bad { why: COUNT })?;
    let port = port_of(port).ok_or(LineErr::Bad { why: NUMBER })?;
    let native = vlan_of(native).ok_or(LineErr::Bad { why: NUMBER })?;
    let control = control_choice(control).ok_or(LineErr::Bad { why: NAME })?;
    if c.has_port(port) {
        return Err(LineErr::Bad { why: TWICE });
    }
    c.ports.push(PortConf {
        port,
        native,
        control,
        restricted: 0,
        guest: 0,
    });
    Ok(Line::Setting)
}

// `restricted NUMBER VLAN` and `guest NUMBER VLAN`
fn read_vlan(other: OtherVlan, c: &mut Config, given: u32, rest: &[u8]) -> Result<Line, LineErr>
    requires ports { are_ports c.old.ports ≡ true }
    ensures ports { are_ports c.new.ports ≡ true }
    ensures reads { Sets (defined.vlan_line other c.old given (words rest.now))
        c.old given c.new given result }
    ensures place { IfOk result (IsInPlace false) }
{
    let (port, vlan) = two_words(rest).ok_or(LineErr::Bad { why: COUNT })?;
    let port = port_of(port).ok_or(LineErr::Bad { why: NUMBER })?;
    let vlan = vlan_of(vlan).ok_or(LineErr::Bad { why: NUMBER })?;
    if !c.has_port(port) {
        return Err(LineErr::Bad { why: PORT });
    }
    if has_other_vlan(other, port, &c.ports) {
        return Err(LineErr::Bad { why: TWICE });
    }
    give_vlan(other, port, vlan, &mut c.ports);
    Ok(Line::Setting)
}

fn has_other_vlan(other: OtherVlan, port: u8, ports: &[PortConf]) -> bool
    ensures { result ≡ defined.has_other_vlan other port ports.now }
{
    ports
        .iter()
        .any(|p| p.port == port && other_vlan(other, p) != 0)
}

fn other_vlan(other: OtherVlan, p: &PortConf) -> u16
    ensures { result ≡ defined.other_vlan other p.now }
{
    match other {
        OtherVlan::Restricted => p.restricted,
        OtherVlan::Guest => p.guest,
    }
}

fn give_vlan(other: OtherVlan, port: u8, vlan: u16, ports: &mut [PortConf])
    ensures { ports.new ≡ defined.give_vlan other port vlan ports.old }
{
    for p in ports.iter_mut() {
        change_vlan(other, port, vlan, p);
    }
}

fn change_vlan(other: OtherVlan, port: u8, vlan: u16, p: &mut PortConf)
    ensures { p.new ≡ defined.change_vlan other port vlan p.old }
{
    if p.port != port {
        return;
    }
    match other {
        OtherVlan::Restricted => p.restricted = vlan,
        OtherVlan::Guest => p.guest = vlan,
    }
}

// `set` and what is set.
fn read_set(c: &mut Config, given: &mut u32, rest: &[u8]) -> Result<Line, LineErr>
    ensures reads { Sets (defined.set_line c.old given.old (words rest.now))
        c.old given.old c.new given.new result }
    ensures ports { c.new.ports ≡ c.old.ports }
    ensures place { IfOk result (IsInPlace false) }
{
    let (word, value) = two_words(rest).ok_or(LineErr::Bad { why: COUNT })?;
    let timing = timing_of(word).ok_or(LineErr::Bad { why: WORD })?;
    read_timing(c, given, timing, value)
}

// One of the times, or of what goes with them.
fn read_timing(
    c: &mut Config,
    given: &mut u32,
    timing: Timing,
    word: &[u8],
) -> Result<Line, LineErr>
    ensures reads { Sets (defined.timing_line c.old given.old timing word.now)
        c.old given.old c.new given.new result }
    ensures ports { c.new.ports ≡ c.old.ports }
    ensures place { IfOk result (IsInPlace false) }
{
    match timing {
        Timing::QuietPeriod => set_quiet_period(c, given, word),
        Timing::ServerTimeout => set_server_timeout(c, given, word),
        Timing::ReauthMax => set_reauth_max(c, given, word),
        Timing::ReauthPeriod => set_reauth_period(c, given, word),
        Timing::Reauth => set_reauth(c, given, word),
        Timing::GuestWait => set_guest_wait(c, given, word),
        Timing::DynWindow => set_dyn_window(c, given, word),
        Timing::RequireMa => set_require_ma(c, given, word),
    }
}

// `set quiet-period SECONDS`
fn set_quiet_period(c: &mut Config, given: &mut u32, word: &[u8]) -> Result<Line, LineErr>
    ensures reads { Sets (defined.timing_line c.old given.old QuietPeriod word.now)
        c.old given.old c.new given.new result }
    ensures ports { c.new.ports ≡ c.old.ports }
    ensures place { IfOk result (IsInPlace false) }
{
    let n = number_of(word, 1, 65_535).ok_or(LineErr::Bad { why: NUMBER })?;
    note_once(given, QUIET_PERIOD)?;
    c.times.quiet = n;
    Ok(Line::Setting)
}

// `set server-timeout SECONDS`
fn set_server_timeout(c: &mut Config, given: &mut u32, word: &[u8]) -> Result<Line, LineErr>
    ensures reads { Sets (defined.timing_line c.old given.old ServerTimeout word.now)
        c.old given.old c.new given.new result }
    ensures ports { c.new.ports ≡ c.old.ports }
    ensures place { IfOk result (IsInPlace false) }
{
    let n = number_of(word, 1, 65_535).ok_or(LineErr::Bad { why: NUMBER })?;
    note_once(given, SERVER_TIMEOUT)?;
    c.times.server = n;
    Ok(Line::Setting)
}

// `set reauth-max ATTEMPTS`
fn set_reauth_max(c: &mut Config, given: &mut u32, word: &[u8]) -> Result<Line, LineErr>
    ensures reads { Sets (defined.timing_line c.old given.old ReauthMax word.now)
        c.old given.old c.new given.new result }
    ensures ports { c.new.ports ≡ c.old.ports }
    ensures place { IfOk result (IsInPlace false) }
{
    let n = number_of(word, 1, 10).ok_or(LineErr::Bad { why: NUMBER })?;
    note_once(given, REAUTH_MAX)?;
    c.times.reauth_max = n;
    Ok(Line::Setting)
}

// `set reauth-period SECONDS`
fn set_reauth_period(c: &mut Config, given: &mut u32, word: &[u8]) -> Result<Line, LineErr>
    ensures reads { Sets (defined.timing_line c.old given.old ReauthPeriod word.now)
        c.old given.old c.new given.new result }
    ensures ports { c.new.ports ≡ c.old.ports }
    ensures place { IfOk result (IsInPlace false) }
{
    let n = number_of(word, 1, 4_294_967_295).ok_or(LineErr::Bad { why: NUMBER })?;
    note_once(given, REAUTH_PERIOD)?;
    c.times.reauth_period = n;
    Ok(Line::Setting)
}

// `set reauth on` and `set reauth off`
fn set_reauth(c: &mut Config, given: &mut u32, word: &[u8]) -> Result<Line, LineErr>
    ensures reads { Sets (defined.timing_line c.old given.old Reauth word.now)
        c.old given.old c.new given.new result }
    ensures ports { c.new.ports ≡ c.old.ports }
    ensures place { IfOk result (IsInPlace false) }
{
    let on = switch_choice(word).ok_or(LineErr::Bad { why: NAME })?;
    note_once(given, REAUTH)?;
    c.times.reauth = on;
    Ok(Line::Setting)
}

// `set guest-wait SECONDS`
fn set_guest_wait(c: &mut Config, given: &mut u32, word: &[u8]) -> Result<Line, LineErr>
    ensures reads { Sets (defined.timing_line c.old given.old GuestWait word.now)
        c.old given.old c.new given.new result }
    ensures ports { c.new.ports ≡ c.old.ports }
    ensures place { IfOk result (IsInPlace false) }
{
    let n = number_of(word, 1, 65_535).ok_or(LineErr::Bad { why: NUMBER })?;
    note_once(given, GUEST_WAIT)?;
    c.guest_wait = n;
    Ok(Line::Setting)
}

// `set dyn-window SECONDS`
fn set_dyn_window(c: &mut Config, given: &mut u32, word: &[u8]) -> Result<Line, LineErr>
    ensures reads { Sets (defined.timing_line c.old given.old DynWindow word.now)
        c.old given.old c.new given.new result }
    ensures ports { c.new.ports ≡ c.old.ports }
    ensures place { IfOk result (IsInPlace false) }
{
    let n = decimal(word, 1, 86_400).ok_or(LineErr::Bad { why: NUMBER })?;
    note_once(given, DYN_WINDOW)?;
    c.window = n;
    Ok(Line::Setting)
}

// `set require-ma on` and `set require-ma off`
fn set_require_ma(c: &mut Config, given: &mut u32, word: &[u8]) -> Result<Line, LineErr>
    ensures reads { Sets (defined.timing_line c.old given.old RequireMa word.now)
        c.old given.old c.new given.new result }
    ensures ports { c.new.ports ≡ c.old.ports }
    ensures place { IfOk result (IsInPlace false) }
{
    let on = switch_choice(word).ok_or(LineErr::Bad { why: NAME })?;
    note_once(given, REQUIRE_MA)?;
    c.require_ma = on;
    Ok(Line::Setting)
}

// `clock SECONDS`
fn read_clock(c: &mut Config, given: &mut u32, rest: &[u8]) -> Result<Line, LineErr>
    ensures reads { Sets (defined.clock_line c.old given.old (words rest.now))
        c.old given.old c.new given.new result }
    ensures ports { c.new.ports ≡ c.old.ports }
    ensures place { IfOk result (IsInPlace false) }
{
    let word = one_word(rest).ok_or(LineErr::Bad { why: COUNT })?;
    let n = decimal(word, 0, 4_294_967_295).ok_or(LineErr::Bad { why: NUMBER })?;
    note_once(given, CLOCK)?;
    c.clock = n;
    Ok(Line::Setting)
}

// `seed OCTETS`
fn read_seed(c: &mut Config, given: &mut u32, rest: &[u8]) -> Result<Line, LineErr>
    ensures reads { Sets (defined.seed_line c.old given.old (words rest.now))
        c.old given.old c.new given.new result }
    ensures ports { c.new.ports ≡ c.old.ports }
    ensures place { IfOk result (IsInPlace false) }
{
    let word = one_word(rest).ok_or(LineErr::Bad { why: COUNT })?;
    let seed = thirty_two_octets(word).ok_or(LineErr::Bad { why: HEX })?;
    note_once(given, SEED)?;
    c.seed = seed;
    Ok(Line::Setting)
}

// `begin`
fn read_begin(given: u32, rest: &[u8]) -> Result<Line, LineErr>
    ensures means { Means (defined.begin_line given (words rest.now)) result }
    ensures place { IfOk result (IsInPlace false) }
{
    if first_word(rest).is_some() {
        return Err(LineErr::Bad { why: COUNT });
    }
    if given & (1 << SERVER) == 0 {
        return Err(LineErr::Bad { why: MISSING });
    }
    Ok(Line::Begin)
}
