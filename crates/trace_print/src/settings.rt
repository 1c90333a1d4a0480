// The text of settings.
ghost use Rattle.std.specs.Prelude.{◌≡◌, ◌++◌, ℕ, List, true, OnOk, OnErr, length, take};
ghost use Rattle.std.specs.List.{flat_map};
ghost use Rattle.switch_event.specs.Config.{empty};
ghost use Rattle.trace_defs.specs.Trace.{Progress, read_lines, start};
ghost use Rattle.trace_defs.specs.Trace.Reading.{Going};
ghost use Rattle.trace_defs.specs.Text as defined;
ghost use Rattle.trace_print.specs.Pieces.{times_text, last_text};
ghost use Rattle.trace_print.specs.Printing.{Appended, ReadsAsSettings};

use crate::names::{control_text, other_vlan_word, switch_text};
use crate::piece::{Piece, put, undo};
use std::alloc::AllocError;
use switch_event::{Client, Config, PortConf};
use trace_defs::OtherVlan;

/// Appends every setting and `begin`: the clients and the ports in the order in which they were
/// given, then the restricted VLANs and then the guest VLANs of the ports that have one. Settings
/// that were read from a text read back from what is appended. Where there is no memory, `out` is
/// as before.
pub fn print_config(c: &Config, out: &mut Vec<u8>) -> Result<(), AllocError>
    ensures printed { OnOk result (out.new.items ≡ out.old.items ++ defined.config_text c.now) }
    ensures back { (room : ℕ) (lines : List (List ℕ)) (p : Progress)
        → read_lines room (start empty) lines ≡ Going p → p.begun ≡ true → p.config ≡ c.now
        → OnOk result (Appended out.old.items out.new.items (ReadsAsSettings c.now)) }
    ensures kept { OnErr result (out.new.items ≡ out.old.items) }
{
    append_config(c, out)
}

fn append_config(c: &Config, out: &mut Vec<u8>) -> Result<(), AllocError>
    ensures printed { OnOk result (out.new.items ≡ out.old.items ++ defined.config_text c.now) }
    ensures kept { OnErr result (out.new.items ≡ out.old.items) }
{
    let start = out.len();
    let put = put_config(c, out);
    undo(start, put, out)
}

fn put_config(c: &Config, out: &mut Vec<u8>) -> Result<(), AllocError>
    ensures printed { OnOk result (out.new.items ≡ out.old.items ++ defined.config_text c.now) }
    ensures begins { OnErr result (take (length out.old.items) out.new.items ≡ out.old.items) }
{
    put_first(c, out)?;
    put_clients(&c.clients, out)?;
    put_ports(&c.ports, out)?;
    put_vlans(OtherVlan::Restricted, &c.ports, out)?;
    put_vlans(OtherVlan::Guest, &c.ports, out)?;
    put_times(c, out)?;
    put_last(c, out)
}

// The settings before the clients.
fn put_first(c: &Config, out: &mut Vec<u8>) -> Result<(), AllocError>
    ensures printed { OnOk result (out.new.items ≡ out.old.items
        ++ flat_map defined.text_line (defined.first_lines c.now)) }
    ensures begins { OnErr result (take (length out.old.items) out.new.items ≡ out.old.items) }
{
    put_bridge(c, out)?;
    put_nas(c, out)?;
    put_server(c, out)
}

fn put_bridge(c: &Config, out: &mut Vec<u8>) -> Result<(), AllocError>
    ensures printed { OnOk result (out.new.items ≡ out.old.items
        ++ defined.text_line (defined.bridge_words c.now)) }
    ensures kept { OnErr result (out.new.items ≡ out.old.items) }
{
    put(
        &[
            Piece::Text(b"bridge "),
            Piece::Hex(&c.bridge.0),
            Piece::Text(b"\n"),
        ],
        out,
    )
}

fn put_nas(c: &Config, out: &mut Vec<u8>) -> Result<(), AllocError>
    ensures printed { OnOk result (out.new.items ≡ out.old.items
        ++ defined.text_line (defined.nas_words c.now)) }
    ensures kept { OnErr result (out.new.items ≡ out.old.items) }
{
    put(
        &[
            Piece::Text(b"nas "),
            Piece::Address(c.nas.ip),
            Piece::Text(b" "),
            Piece::Text(&c.nas.name),
            Piece::Text(b"\n"),
        ],
        out,
    )
}

fn put_server(c: &Config, out: &mut Vec<u8>) -> Result<(), AllocError>
    ensures printed { OnOk result (out.new.items ≡ out.old.items
        ++ defined.text_line (defined.server_words c.now)) }
    ensures kept { OnErr result (out.new.items ≡ out.old.items) }
{
    put(
        &[
            Piece::Text(b"server "),
            Piece::Address(c.server.ip),
            Piece::Text(b" "),
            Piece::Number(u64::from(c.server.port)),
            Piece::Text(b" "),
            Piece::Hex(&c.secret),
            Piece::Text(b"\n"),
        ],
        out,
    )
}

fn put_clients(clients: &[Client], out: &mut Vec<u8>) -> Result<(), AllocError>
    ensures printed { OnOk result (out.new.items ≡ out.old.items
        ++ flat_map (λ client. defined.text_line (defined.client_words client)) clients.now) }
    ensures begins { OnErr result (take (length out.old.items) out.new.items ≡ out.old.items) }
{
    for client in clients {
        put_client(client, out)?;
    }
    Ok(())
}

fn put_client(client: &Client, out: &mut Vec<u8>) -> Result<(), AllocError>
    ensures printed { OnOk result (out.new.items ≡ out.old.items
        ++ defined.text_line (defined.client_words client.now)) }
    ensures kept { OnErr result (out.new.items ≡ out.old.items) }
{
    put(
        &[
            Piece::Text(b"client "),
            Piece::Address(client.ip),
            Piece::Text(b" "),
            Piece::Hex(&client.secret),
            Piece::Text(b"\n"),
        ],
        out,
    )
}

fn put_ports(ports: &[PortConf], out: &mut Vec<u8>) -> Result<(), AllocError>
    ensures printed { OnOk result (out.new.items ≡ out.old.items
        ++ flat_map (λ conf. defined.text_line (defined.port_words conf)) ports.now) }
    ensures begins { OnErr result (take (length out.old.items) out.new.items ≡ out.old.items) }
{
    for conf in ports {
        put_port(conf, out)?;
    }
    Ok(())
}

fn put_port(conf: &PortConf, out: &mut Vec<u8>) -> Result<(), AllocError>
    ensures printed { OnOk result (out.new.items ≡ out.old.items
        ++ defined.text_line (defined.port_words conf.now)) }
    ensures kept { OnErr result (out.new.items ≡ out.old.items) }
{
    put(
        &[
            Piece::Text(b"port "),
            Piece::Number(u64::from(conf.port)),
            Piece::Text(b" "),
            Piece::Number(u64::from(conf.native)),
            Piece::Text(b" "),
            Piece::Text(control_text(conf.control)),
            Piece::Text(b"\n"),
        ],
        out,
    )
}

fn put_vlans(other: OtherVlan, ports: &[PortConf], out: &mut Vec<u8>) -> Result<(), AllocError>
    ensures printed { OnOk result (out.new.items ≡ out.old.items
        ++ flat_map (λ conf. flat_map defined.text_line (defined.port_vlan_lines other conf))
        ports.now) }
    ensures begins { OnErr result (take (length out.old.items) out.new.items ≡ out.old.items) }
{
    for conf in ports {
        put_vlan(other, conf, out)?;
    }
    Ok(())
}

// The line of a VLAN of a port, where the port has one.
fn put_vlan(other: OtherVlan, conf: &PortConf, out: &mut Vec<u8>) -> Result<(), AllocError>
    ensures printed { OnOk result (out.new.items ≡ out.old.items
        ++ flat_map defined.text_line (defined.port_vlan_lines other conf.now)) }
    ensures kept { OnErr result (out.new.items ≡ out.old.items) }
{
    let vlan = match other {
        OtherVlan::Restricted => conf.restricted,
        OtherVlan::Guest => conf.guest,
    };
    if vlan == 0 {
        return Ok(());
    }
    put(
        &[
            Piece::Text(other_vlan_word(other)),
            Piece::Text(b" "),
            Piece::Number(u64::from(conf.port)),
            Piece::Text(b" "),
            Piece::Number(u64::from(vlan)),
            Piece::Text(b"\n"),
        ],
        out,
    )
}

// The times of the machines.
fn put_times(c: &Config, out: &mut Vec<u8>) -> Result<(), AllocError>
    ensures printed { OnOk result (out.new.items ≡ out.old.items ++ times_text c.now.times) }
    ensures kept { OnErr result (out.new.items ≡ out.old.items) }
{
    put(
        &[
            Piece::Text(b"set quiet-period "),
            Piece::Number(u64::from(c.times.quiet)),
            Piece::Text(b"\nset server-timeout "),
            Piece::Number(u64::from(c.times.server)),
            Piece::Text(b"\nset reauth-max "),
            Piece::Number(u64::from(c.times.reauth_max)),
            Piece::Text(b"\nset reauth-period "),
            Piece::Number(u64::from(c.times.reauth_period)),
            Piece::Text(b"\nset reauth "),
            Piece::Text(switch_text(c.times.reauth)),
            Piece::Text(b"\n"),
        ],
        out,
    )
}

// The other settings, and `begin`.
fn put_last(c: &Config, out: &mut Vec<u8>) -> Result<(), AllocError>
    ensures printed { OnOk result (out.new.items ≡ out.old.items ++ last_text c.now) }
    ensures kept { OnErr result (out.new.items ≡ out.old.items) }
{
    put(
        &[
            Piece::Text(b"set guest-wait "),
            Piece::Number(u64::from(c.guest_wait)),
            Piece::Text(b"\nset dyn-window "),
            Piece::Number(c.window),
            Piece::Text(b"\nset require-ma "),
            Piece::Text(switch_text(c.require_ma)),
            Piece::Text(b"\nclock "),
            Piece::Number(c.clock),
            Piece::Text(b"\nseed "),
            Piece::Hex(&c.seed),
            Piece::Text(b"\nbegin\n"),
        ],
        out,
    )
}
