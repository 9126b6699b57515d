//! What was sent, by commands, in words and in rows.
ghost use Rattle.std.specs.Prelude.{◌≡◌, ◌++◌, IsOkUnless, OnOk, option_map, slice_get, string_bytes};
ghost use Rattle.cb_base.specs.declared.fault.Fault.TheVariants.{Memory};
ghost use Rattle.cb_net.specs.TrafficText.{columns_text, command_names, head_at, heads_text, sent_at, traffic_line};

use cb_base::Fault;
use cb_net_node::{COMMANDS, NAMES, Row};

/// The name of the command at a place, if there is one.
fn name_at(place: usize) -> Option<&'static str>
    ensures { option_map (λ name. name.now) result ≡ slice_get command_names place }
{
    NAMES.as_slice().get(place).copied()
}

/// Appends how many messages and bytes were sent of each command, and the line's end. Fails only
/// with `Fault::Memory`.
pub fn push_sent(text: &mut String, rows: &[Row]) -> Result<(), Fault>
    ensures text { OnOk result
        (string_bytes text.new ≡ string_bytes text.old ++ traffic_line rows.now) }
    ensures memory { IsOkUnless result Memory }
{
    for place in 0..COMMANDS {
        push_sent_at(text, rows, place)?;
    }
    writeln!(text)?;
    Ok(())
}

/// Appends what was sent of the command at a place. Fails only with `Fault::Memory`.
fn push_sent_at(text: &mut String, rows: &[Row], place: usize) -> Result<(), Fault>
    ensures text { OnOk result
        (string_bytes text.new ≡ string_bytes text.old ++ sent_at rows.now place) }
    ensures memory { IsOkUnless result Memory }
{
    let (Some(name), Some(row)) = (name_at(place), rows.get(place)) else {
        return Ok(());
    };
    let (messages, bytes) = (row.messages, row.bytes);
    if messages > 0 {
        write!(text, " {name} {messages} {bytes}")?;
    }
    Ok(())
}

/// Appends the names of the columns of all commands, and the row's end. Fails only with
/// `Fault::Memory`.
pub fn push_heads(text: &mut String) -> Result<(), Fault>
    ensures text { OnOk result
        (string_bytes text.new ≡ string_bytes text.old ++ heads_text) }
    ensures memory { IsOkUnless result Memory }
{
    for place in 0..COMMANDS {
        push_head_at(text, place)?;
    }
    writeln!(text)?;
    Ok(())
}

/// Appends the names of the two columns of a command. Fails only with `Fault::Memory`.
fn push_head_at(text: &mut String, place: usize) -> Result<(), Fault>
    ensures text { OnOk result
        (string_bytes text.new ≡ string_bytes text.old ++ head_at place) }
    ensures memory { IsOkUnless result Memory }
{
    let Some(name) = name_at(place) else {
        return Ok(());
    };
    write!(text, ",{name}_messages,{name}_bytes")?;
    Ok(())
}

/// Appends the columns of all commands, and the row's end. Fails only with `Fault::Memory`.
pub fn push_columns(text: &mut String, rows: &[Row]) -> Result<(), Fault>
    ensures text { OnOk result
        (string_bytes text.new ≡ string_bytes text.old ++ columns_text rows.now) }
    ensures memory { IsOkUnless result Memory }
{
    for row in rows {
        let (messages, bytes) = (row.messages, row.bytes);
        write!(text, ",{messages},{bytes}")?;
    }
    writeln!(text)?;
    Ok(())
}
