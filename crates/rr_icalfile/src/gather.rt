// The series and the instances among the events of a key (RFC 5545, section 3.8.4.4).
ghost use Rattle.std.specs.Prelude.{◌≡◌, option_map};
ghost use Rattle.rr_seam.specs.Steps.{AnswersKey};
ghost use Rattle.rr_icalfile.specs.Edited.{judged_instance, key_events, with_event};

use crate::event::{Event, has_rule_or_date};
use rr_seam::{KeyFault, KeyRefusal};
use std::alloc::Global;
use std::marker::Model;

/// The series of a key, if it has one, and its instances.
#[derive(Drop)]
pub struct Gathered {
    series: Option<Event>,
    instances: Vec<Event>,
}

impl Model for Gathered {
    ghost use Rattle.rr_icalfile.specs.Edited.{KeyEvents};

    ghost Value = { KeyEvents };

    ghost view = { λ g. record { series = g.series; instances = g.instances.items } };
}

impl Gathered {
    /// The event without a RECURRENCE-ID, if there is one: the series.
    pub fn series(&self) -> Option<&Event>
        ensures { option_map (λ event. event.now) result ≡ self.now.series }
    {
        self.series.as_ref()
    }

    /// The events with a RECURRENCE-ID, in the order of the file.
    pub fn instances(&self) -> &[Event]
        ensures { result.now ≡ self.now.instances }
    {
        self.instances.as_slice()
    }

    /// The series, if there is one, and the instances, moved out.
    pub fn into_parts(self) -> (Option<Event>, Vec<Event>)
        ensures series { result.0 ≡ self.series }
        ensures instances { result.1.items ≡ self.instances }
    {
        (self.series, self.instances)
    }
}

// An instance may have no range, and neither a rule nor dates.
fn judge_instance(event: &Event) -> Result<(), KeyRefusal>
    ensures { result ≡ judged_instance event.now.recurrence event.now }
{
    let Some(recurrence) = &event.recurrence else {
        return Ok(());
    };
    if recurrence.has_range {
        return Err(KeyRefusal::Range(recurrence.line));
    }
    if has_rule_or_date(&event.scan) {
        return Err(KeyRefusal::TwoSeries(event.first));
    }
    Ok(())
}

// The events of a key with a further one: another instance, or the series, of which a second one is refused.
fn with_event(gathered: Gathered, event: Event) -> Result<Gathered, KeyFault>
    ensures { AnswersKey (with_event gathered event) result }
{
    let mut gathered = gathered;
    if event.recurrence.is_some() {
        judge_instance(&event)?;
        gathered.instances.push(event)?;
        return Ok(gathered);
    }
    if gathered.series.is_some() {
        return Err(KeyFault::Refused(KeyRefusal::TwoSeries(event.first)));
    }
    gathered.series = Some(event);
    Ok(gathered)
}

/// The series and the instances of the events of one key, in their order.
///
/// `Range` comes for a RECURRENCE-ID with a RANGE parameter, `TwoSeries` for a second event without a RECURRENCE-ID, unless
/// it states the first again, and for an instance with RRULE or RDATE that is not cancelled and not alone.
pub fn gather(alloc: Global, events: Vec<Event>) -> Result<Gathered, KeyFault>
    ensures { AnswersKey (key_events events.items) result }
{
    let mut gathered = Gathered {
        series: None,
        instances: Vec::new(alloc),
    };
    for event in events {
        gathered = with_event(gathered, event)?;
    }
    Ok(gathered)
}
