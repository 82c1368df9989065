//! Events and their places as text.
ghost use Rattle.std.specs.Prelude.{◌≡◌, ◌++◌, OnOk, codes};
ghost use Rattle.std.specs.Fmt.{decimal};
ghost use Rattle.octet_commands.specs.Answer.{place_text};
ghost use Rattle.octet_commands.specs.EventTexts.{event_text, object_name, placed_text};

use octet_log::push_mark;
use octet_model::{Event, OutOfMemory, Place, Script, push_number};

fn push_name(out: &mut Vec<u8>, script: &Script, object: u16) -> Result<(), OutOfMemory>
    ensures { OnOk result (out.new.items ≡ out.old.items ++ object_name script.now object) }
{
    if let Some(found) = script.objects.get(object as usize) {
        out.extend_from_slice(found.name.as_bytes())?;
    }
    Ok(())
}

// Adds what an access does, its object and a value of it.
fn push_access(
    out: &mut Vec<u8>,
    does: &[u8],
    script: &Script,
    object: u16,
    value: u64,
) -> Result<(), OutOfMemory>
    ensures { OnOk result (out.new.items ≡ out.old.items ++ does.now ++ object_name script.now object ++ codes " " ++ decimal value) }
{
    out.extend_from_slice(does)?;
    push_name(out, script, object)?;
    out.extend_from_slice(b" ")?;
    push_number(out, value)
}

/// Adds an event's text at the end: an access of an object with its values, or a mark with its
/// numbers.
pub(crate) fn push_event(
    out: &mut Vec<u8>,
    script: &Script,
    event: Event,
) -> Result<(), OutOfMemory>
    ensures { OnOk result (out.new.items ≡ out.old.items ++ event_text script.now event) }
{
    match event {
        Event::Read { object, value } => push_access(out, b"read ", script, object, value),
        Event::Write { object, value } => push_access(out, b"write ", script, object, value),
        Event::Update {
            object,
            before,
            after,
        } => {
            push_access(out, b"update ", script, object, before)?;
            out.extend_from_slice(b" ")?;
            push_number(out, after)
        }
        Event::Marked { mark } => push_mark(out, mark),
    }
}

/// Adds a place at the end.
pub(crate) fn push_place(out: &mut Vec<u8>, thread: u64, event: u64) -> Result<(), OutOfMemory>
    ensures { OnOk result (out.new.items ≡ out.old.items ++ place_text (record { thread = thread; event = event })) }
{
    push_number(out, thread)?;
    out.extend_from_slice(b":")?;
    push_number(out, event)
}
