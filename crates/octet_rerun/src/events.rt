//! The events of accesses.
ghost use Rattle.std.specs.Prelude.{◌≡◌};
ghost use Rattle.octet_rerun.specs.Events.{event_of, found_in};

use octet_model::Event;
use octet_recorder::Access;

/// The event of an access that finds this value.
pub(crate) fn event_of(access: Access, found: u64) -> Event
    ensures { result ≡ event_of access found }
{
    match access {
        Access::Read { object } => Event::Read {
            object,
            value: found,
        },
        Access::Write { object, value } => Event::Write { object, value },
        Access::Update { object, change } => Event::Update {
            object,
            before: found,
            after: change.changed(found),
        },
    }
}

/// The value that an event found. Of a write it is the one that it wrote.
pub(crate) fn found_in(event: Event) -> u64
    ensures { result ≡ found_in event }
{
    match event {
        Event::Read { value, .. } => value,
        Event::Write { value, .. } => value,
        Event::Update { before, .. } => before,
        Event::Marked { .. } => 0,
    }
}
