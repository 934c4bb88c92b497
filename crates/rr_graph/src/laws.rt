// Laws of events, each the contract of a function that does nothing.
ghost use Rattle.rr_model.specs.Graph.Laws.{GraphCounterpartHasOccurrences, GraphIsReadBack};
ghost use Rattle.rr_graph.specs.FirstOccurrence.{GraphCounterpartStartsFirst, RefusedWhereNoneOccurs};
ghost use Rattle.rr_graph.specs.Moved.{GraphCounterpartIsSound, MovingStartKeepsOccurrences};

/// A valid event and its counterpart of RFC 5545 have the same occurrences.
pub fn counterpart_has_occurrences()
    ensures { GraphCounterpartHasOccurrences }
{}

/// The counterpart of a valid event is valid, and its rule chooses its start, the first occurrence.
pub fn counterpart_is_sound()
    ensures { GraphCounterpartIsSound }
{}

/// A valid event keeps its occurrences if its start and its startDate are moved to the first of them.
pub fn moving_the_start_keeps_occurrences()
    ensures { MovingStartKeepsOccurrences }
{}

/// The counterpart of a valid event starts at the event's first occurrence.
pub fn counterpart_starts_first()
    ensures { GraphCounterpartStartsFirst }
{}

/// A recurrence is refused as `NoOccurrence` exactly if no day of the years 1 to 9999 is one of its pattern and range.
pub fn refused_where_none_occurs()
    ensures { RefusedWhereNoneOccurs }
{}

/// What is written for a valid event that repeats is read back as the event, if its startDate is a day of its pattern.
pub fn graph_is_read_back()
    ensures { GraphIsReadBack }
{}
