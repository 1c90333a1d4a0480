// A text as comment lines.
ghost use Rattle.std.specs.Prelude.{◌≡◌, ◌<◌, ◌++◌, [], ◌∷◌, None, Some, length, IfSome, OnOk, position};
ghost use Rattle.wire_defs.specs.Text.{ended_lines};
ghost use Rattle.trace_defs.specs.Alike.{is_line_feed};
ghost use Rattle.serve_defs.specs.Log.{comment_line, commented};

use std::alloc::AllocError;

/// Appends each line of a text, which a line feed ends, behind a number sign and a space. What
/// follows the last line feed is left out. Where there is no memory, a part may have been appended.
pub fn print_comments(text: &[u8], out: &mut Vec<u8>) -> Result<(), AllocError>
    ensures { OnOk result (out.new.items ≡ out.old.items ++ commented text.now) }
{
    let mut rest = text;
    'lines: while let Some((line, after)) = first_line(rest) {
        put_comment(line, out)?;
        rest = after;
    }
    Ok(())
}

fn put_comment(line: &[u8], out: &mut Vec<u8>) -> Result<(), AllocError>
    ensures { OnOk result (out.new.items ≡ out.old.items ++ comment_line line.now) }
{
    out.extend_from_slice(b"# ")?;
    out.extend_from_slice(line)?;
    out.push(b'\n')?;
    Ok(())
}

// The first line of a text, and what follows its line feed.
fn first_line(text: &[u8]) -> Option<(&[u8], &[u8])>
    ensures none { result ≡ None → ended_lines text.now ≡ [] }
    ensures some { IfSome result (λ r. ended_lines text.now ≡ r.0.now ∷ ended_lines r.1.now) }
    ensures shorter { IfSome result (λ r. length r.1.now < length text.now) }
{
    match feed_at(text) {
        Some(end) => Some((&text[..end], &text[end + 1..])),
        None => None,
    }
}

fn feed_at(text: &[u8]) -> Option<usize>
    ensures { result ≡ position is_line_feed text.now }
{
    text.iter().position(|octet| *octet == b'\n')
}
