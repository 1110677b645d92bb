//! The console's lines.
ghost use Rattle.std.specs.Prelude.{◌≡◌, ◌++◌, OnOk, false, flat_map};
ghost use Rattle.herm_system.specs.TextLines.{line};
ghost use Rattle.herm_text.specs.StringsReadBack.{unescaped, unquoted};

use herm_events::Trace;
use std::alloc::AllocError;

/// Appends what an escaped text stands for, up to its closing quote.
fn push_unescaped(out: &mut Vec<u8>, text: &[u8]) -> Result<(), AllocError>
    ensures { OnOk result (out.new.items ≡ out.old.items ++ unescaped false text.now) }
{
    let mut after_backslash = false;
    for byte in text {
        if after_backslash {
            out.push(if *byte == b'n' { b'\n' } else { *byte })?;
            after_backslash = false;
        } else if *byte == b'"' {
            return Ok(());
        } else if *byte == b'\\' {
            after_backslash = true;
        } else {
            out.push(*byte)?;
        }
    }
    Ok(())
}

/// Appends the string that a text stands for, up to its closing quote.
fn push_unquoted(out: &mut Vec<u8>, text: &[u8]) -> Result<(), AllocError>
    ensures { OnOk result (out.new.items ≡ out.old.items ++ unquoted text.now) }
{
    match text {
        [] => Ok(()),
        [_, rest @ ..] => push_unescaped(out, rest),
    }
}

/// Appends a string of the console as a line, from the string's text.
fn push_console_line(out: &mut Vec<u8>, text: &Trace) -> Result<(), AllocError>
    ensures { OnOk result (out.new.items ≡ out.old.items ++ line (unquoted text.now)) }
{
    push_unquoted(out, text.bytes())?;
    out.push(b'\n')?;
    Ok(())
}

/// Appends the console's lines, from the texts that are queued at its port.
pub fn push_console(out: &mut Vec<u8>, texts: &[Trace]) -> Result<(), AllocError>
    ensures { OnOk result (out.new.items ≡ out.old.items ++ flat_map (λ t. line (unquoted t)) texts.now) }
{
    for text in texts {
        push_console_line(out, text)?;
    }
    Ok(())
}
