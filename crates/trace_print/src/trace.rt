// The text of whole traces.
ghost use Rattle.std.specs.Prelude.{◌≡◌, ◌≤◌, ◌++◌, ℕ, List, OnOk, OnErr, length, take};
ghost use Rattle.std.specs.List.{All, flat_map};
ghost use Rattle.trace_print.specs.Printing.{Appended, HasLane};
ghost use Rattle.trace_print.specs.Whole.{ReadsAsTrace, entry_text, phases_of, trace_text};

use crate::piece::undo;
use crate::records::print_line;
use crate::settings::print_config;
use std::alloc::AllocError;
use switch_event::Config;
use trace_defs::Line;

/// Appends a whole trace: the settings and `begin`, and then the records and the ends of phases
/// among `lines`, in order. The other lines give nothing: settings are printed before, and a blank
/// line means nothing. The lane of a control event is 1 to 3. A trace that was read from a text
/// reads back from what is appended, where that is within the limit: the same settings, and the
/// same records in the same phases. `AllocError`: there is no memory, and `out` is as before.
pub fn print_trace(c: &Config, lines: &[Line], out: &mut Vec<u8>) -> Result<(), AllocError>
    requires lanes { All HasLane lines.now }
    ensures printed { OnOk result (out.new.items ≡ out.old.items ++ trace_text c.now lines.now) }
    ensures back { (limit room : ℕ) (text : List ℕ)
        → ReadsAsTrace limit room c.now (phases_of lines.now) text
        → OnOk result (Appended out.old.items out.new.items (λ printed.
        length printed ≤ limit → ReadsAsTrace limit room c.now (phases_of lines.now) printed)) }
    ensures kept { OnErr result (out.new.items ≡ out.old.items) }
{
    append_trace(c, lines, out)
}

fn append_trace(c: &Config, lines: &[Line], out: &mut Vec<u8>) -> Result<(), AllocError>
    requires lanes { All HasLane lines.now }
    ensures printed { OnOk result (out.new.items ≡ out.old.items ++ trace_text c.now lines.now) }
    ensures kept { OnErr result (out.new.items ≡ out.old.items) }
{
    let start = out.len();
    let put = put_trace(c, lines, out);
    undo(start, put, out)
}

fn put_trace(c: &Config, lines: &[Line], out: &mut Vec<u8>) -> Result<(), AllocError>
    requires lanes { All HasLane lines.now }
    ensures printed { OnOk result (out.new.items ≡ out.old.items ++ trace_text c.now lines.now) }
    ensures begins { OnErr result (take (length out.old.items) out.new.items ≡ out.old.items) }
{
    print_config(c, out)?;
    put_entries(lines, out)
}

fn put_entries(lines: &[Line], out: &mut Vec<u8>) -> Result<(), AllocError>
    requires lanes { All HasLane lines.now }
    ensures printed { OnOk result (out.new.items ≡ out.old.items ++ flat_map entry_text lines.now) }
    ensures begins { OnErr result (take (length out.old.items) out.new.items ≡ out.old.items) }
{
    for line in lines {
        put_entry(line, out)?;
    }
    Ok(())
}

// A record or the end of a phase.
fn put_entry(line: &Line, out: &mut Vec<u8>) -> Result<(), AllocError>
    requires lane { HasLane line.now }
    ensures printed { OnOk result (out.new.items ≡ out.old.items ++ entry_text line.now) }
    ensures kept { OnErr result (out.new.items ≡ out.old.items) }
{
    match line {
        Line::Blank | Line::Begin | Line::Setting => Ok(()),
        Line::Sync | Line::Control { .. } | Line::Data { .. } => print_line(line, out),
    }
}
