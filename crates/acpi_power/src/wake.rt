//! By which events devices wake the machine (ACPI 6.5, 7.3.13).

use acpi_overview::Value;
use acpi_tree::Term;

/// By which event a device wakes the machine.
#[derive(Debug, Clone, Copy)]
pub enum WakeEvent<'a> {
    /// A general-purpose event of `\_GPE`.
    General(u64),
    /// An event of another GPE block device, the name of which is given.
    OfBlock(u64, &'a Term),
    /// What a term gives.
    Computed(&'a Term),
}

/// What `_PRW` says.
#[derive(Debug, Clone, Copy)]
pub struct Wake<'a> {
    /// The event.
    pub event: WakeEvent<'a>,
    /// The deepest sleep state from which it wakes, where that is a constant.
    pub state: Option<u64>,
    /// The power resources that it needs for it.
    pub resources: &'a [Term],
}

fn number_of(term: &Term) -> Option<u64> {
    Value::of_term(term).number()
}

fn event_of(term: &Term) -> WakeEvent<'_> {
    match Value::of_term(term) {
        Value::Number(number) => WakeEvent::General(number),
        Value::Package([block, number]) => match number_of(number) {
            Some(number) => WakeEvent::OfBlock(number, block),
            None => WakeEvent::Computed(term),
        },
        _ => WakeEvent::Computed(term),
    }
}

/// What a `_PRW` says that is constant.
pub fn wake_of<'a>(prw: &Value<'a>) -> Option<Wake<'a>> {
    match *prw {
        Value::Package([event, state, resources @ ..]) => Some(Wake {
            event: event_of(event),
            state: number_of(state),
            resources,
        }),
        _ => None,
    }
}
