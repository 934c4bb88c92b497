// What `help`, `version` and `explain` print: the table of commands, the rows of docs/REFUSALS.md and release/VERSION.
ghost use Rattle.std.specs.Prelude.{◌≡◌, option_map};
ghost use Rattle.rr_answer.specs.Pages.{explanation_of, help_of, page_in};

// A page, with the name that asks for it.
#[derive(Clone, Copy)]
struct Page {
    name: &'static str,
    text: &'static [u8],
}

// The text of the first page of this name.
fn page_in(pages: &[Page], name: &str) -> Option<&'static [u8]>
    ensures { option_map (λ t. t.now) result ≡ page_in name.now pages.now }
{
    for page in pages {
        if name == page.name {
            return Some(page.text);
        }
    }
    None
}

// commands.txt: BEGIN (bench/commands.py writes these lines)
pub const HELP: &[u8] =
    b"rr says whether a repeating series survived a trip between calendars, for all years to come.

  rr equal A B           yes, or the first occurrence that only one of them has, and which
  rr within A B          yes, or the first occurrence of A that B lacks
  rr disjoint A B        yes, or the first common occurrence
  rr clear D A E B       yes, or the first second at which A, for D seconds, and B, for E seconds, both run
  rr differences N A B   the first N occurrences that exactly one of A and B has, one a line, each with its side
  rr check A             the days after which the series repeats, or why it is refused
  rr list N A            the first N occurrences, one a line
  rr from MOMENT N A     the first N occurrences that do not come before a date or a moment, one a line
  rr between FROM TO A   the occurrences that do not come before FROM and come before TO, one a line
  rr nth N A             the N-th occurrence; rank MOMENT A: how many come no later than a date or a moment
  rr canon A             the canonical text: equal bytes exactly for equal occurrences; canon1 A writes its first version
  rr union A B           the canonical text of what either has; common A B: of what both have; minus A B: of what A alone has
  rr translate LANG A    the same occurrences in another language: rrule, vcal or graph
  rr split N graph A     a plan for Microsoft Graph: at most N series, instances of them to cancel, and single events; vcal: events of vCalendar 1.0
  rr infer A             the first single rule that has the occurrences
  rr drill SEED N        how many verdicts between N drawn series are yes
  rr help [COMMAND]      this page, or what COMMAND prints; explain REFUSAL: what a refusal means, and what to do; version: the release

A and B are LANG:FILE or LANG@OFFSET:FILE. OFFSET is as +01:00, or zone, which reads moments in UTC by the VTIMEZONE of the file
(rrule and rscale); FILE is a file, or - for standard input, and LANG one of

  rrule    iCalendar
  vcal     vCalendar 1.0
  graph    the JSON of Microsoft Graph
  list     dates, one a line
  canon    a canonical text
  rscale   iCalendar with RSCALE and SKIP, RFC 7529

  rr check rrule:event.ics
  rr equal rrule:sent.ics graph:received.json
  rr translate vcal rrule:event.ics >event.vcs

The status is 0 for yes or done, 1 for no, 2 if an operand is refused, 3 for words that are no command, 4 if an operand could not be
read, 5 if the output could not be written, 6 out of memory, 7 if a word is no text in UTF-8.

'rr help COMMAND' says more of a command, as 'rr help list', and 'rr explain REFUSAL' of a refusal, as 'rr explain UtcMoment'. The manual is
docs/MANUAL.md, and share/doc/rr/MANUAL.md in the folder of an installation.
";

pub const VERSION: &[u8] = b"rr 0.21.0
";

pub const HELP_EQUAL: &[u8] = b"rr equal A B

It prints yes, or no with the first occurrence that only one of them has, and which.
A and B are LANG:FILE or LANG@OFFSET:FILE, as rrule:event.ics; LANG is rrule, vcal, graph, list, canon or rscale.
";

pub const HELP_WITHIN: &[u8] = b"rr within A B

It prints yes, or no with the first occurrence of A that B lacks.
A and B are LANG:FILE or LANG@OFFSET:FILE, as rrule:event.ics; LANG is rrule, vcal, graph, list, canon or rscale.
";

pub const HELP_DISJOINT: &[u8] = b"rr disjoint A B

It prints yes, or no with the first common occurrence.
A and B are LANG:FILE or LANG@OFFSET:FILE, as rrule:event.ics; LANG is rrule, vcal, graph, list, canon or rscale.
";

pub const HELP_CLEAR: &[u8] = b"rr clear D A E B

It prints whether A, for D seconds each time, and B, for E seconds, never run at the same time: yes, or no with the first second that they share and the two occurrences.
D is a number from 1 to 31,622,400.
E is a number from 1 to 31,622,400.
A and B are LANG:FILE or LANG@OFFSET:FILE, as rrule:event.ics; LANG is rrule, vcal, graph, list, canon or rscale.
";

pub const HELP_DIFFERENCES: &[u8] = b"rr differences N A B

It prints the first N occurrences that exactly one of both has, one a line, each with its side (A or B); status 0 and no line if there are none.
N is a number from 1 to 10,000.
A and B are LANG:FILE or LANG@OFFSET:FILE, as rrule:event.ics; LANG is rrule, vcal, graph, list, canon or rscale.
";

pub const HELP_CHECK: &[u8] = b"rr check A

It prints cycle DAYS: the series is sound, and its endless rules repeat after that many days.
A is LANG:FILE or LANG@OFFSET:FILE, as rrule:event.ics; LANG is rrule, vcal, graph or list.
";

pub const HELP_LIST: &[u8] = b"rr list N A

It prints the first N occurrences, one a line.
N is a number from 1 to 100,000.
A is LANG:FILE or LANG@OFFSET:FILE, as rrule:event.ics; LANG is rrule, vcal, graph or list.
";

pub const HELP_FROM: &[u8] = b"rr from MOMENT N A

It prints the first N occurrences that do not come before a date or a moment, one a line.
N is a number from 1 to 100,000.
MOMENT is a date or a moment of the years 1 to 9999, as 2024-02-29 or 2024-02-29T09:30:00.
A is LANG:FILE or LANG@OFFSET:FILE, as rrule:event.ics; LANG is rrule, vcal, graph, list, canon or rscale.
";

pub const HELP_BETWEEN: &[u8] = b"rr between FROM TO A

It prints the occurrences that do not come before one date or moment and come before another, one a line; status 1 if there are more than 100,000, of which the first are printed.
FROM is a date or a moment of the years 1 to 9999, as 2024-02-29 or 2024-02-29T09:30:00.
TO is a date or a moment of the years 1 to 9999, as 2024-02-29 or 2024-02-29T09:30:00.
A is LANG:FILE or LANG@OFFSET:FILE, as rrule:event.ics; LANG is rrule, vcal, graph, list, canon or rscale.
";

pub const HELP_NTH: &[u8] = b"rr nth N A
rr rank MOMENT A

It prints the N-th occurrence, or none; how many come no later than a date or a moment.
N is a number from 1 to 1,125,899,906,842,624.
MOMENT is a date or a moment of the years 1 to 9999, as 2024-02-29 or 2024-02-29T09:30:00.
A is LANG:FILE or LANG@OFFSET:FILE, as rrule:event.ics; LANG is rrule, vcal, graph, list, canon or rscale.
";

pub const HELP_CANON: &[u8] = b"rr canon A
rr canon1 A

It prints the canonical text: equal bytes exactly for equal occurrences; its first version.
A is LANG:FILE or LANG@OFFSET:FILE, as rrule:event.ics; LANG is rrule, vcal, graph, list, canon or rscale.
";

pub const HELP_UNION: &[u8] = b"rr union A B
rr common A B
rr minus A B

It prints the canonical text of what either has, of what both have, of what A alone has.
A and B are LANG:FILE or LANG@OFFSET:FILE, as rrule:event.ics; LANG is rrule, vcal, graph, list, canon or rscale.
";

pub const HELP_TRANSLATE: &[u8] = b"rr translate LANG A

It prints the same occurrences as rrule, vcal or graph; refused A NotSayable if no single rule (vcal) or pattern (graph) that is looked for has them.
LANG is rrule, vcal or graph.
A is LANG:FILE or LANG@OFFSET:FILE, as rrule:event.ics; LANG is rrule, vcal, graph or list, and with graph also rscale.
";

pub const HELP_SPLIT: &[u8] = b"rr split N graph A
rr split N vcal A

It prints a plan for Microsoft Graph: at most N series, the instances of them to cancel and single events, which together have exactly the occurrences, each once; with vcal at most N events of vCalendar 1.0 with one rule each and the dates taken out of it, and one of single dates; refused A NotSayable if the parts that are tried one after another do not lead there.
N is a number from 1 to 64.
A is LANG:FILE or LANG@OFFSET:FILE, as rrule:event.ics; LANG is rrule, vcal, graph, list, canon or rscale.
";

pub const HELP_INFER: &[u8] = b"rr infer A

It prints the first single rule that has the occurrences.
A is LANG:FILE or LANG@OFFSET:FILE, as rrule:event.ics; LANG is rrule, vcal, graph or list.
";

pub const HELP_DRILL: &[u8] = b"rr drill SEED N

It prints a large input in two words: how many verdicts between N series drawn from a number are yes.
SEED is a number from 0 to 4,294,967,295.
N is a number from 1 to 100.
";

pub const HELP_HELP: &[u8] = b"rr help [COMMAND]
rr explain REFUSAL
rr version

It prints a page of help, or what a command prints and takes; what a refusal means and what to do, as explain UtcMoment; the release. --help and --version are the same.
";

pub const EXPLAIN_TOO_LONG: &[u8] = b"TooLong

It comes if the text has more than 1,048,576 bytes.
Languages: all.
What to do: compare whole calendars by rr-calendars OLD NEW, or take one event out with its instances by examples/one_event.awk. A canonical text of that length can't be read again.
";

pub const EXPLAIN_NOT_TEXT: &[u8] = b"NotText

It comes if the bytes are no UTF-8.
Languages: rrule, rscale, graph, list.
What to do: iconv -f latin1 -t utf-8 FILE.
";

pub const EXPLAIN_BAD_LINE: &[u8] = b"BadLine LINE

It comes if a line that is used has no : before its value, an END closes another component than the one that is open, or the text ends within one (then the line is its last).
Languages: rrule, rscale, vcal.
What to do: copy the whole file; mend the line.
";

pub const EXPLAIN_SEVERAL_EVENTS: &[u8] = b"SeveralEvents

It comes if a second event begins.
Languages: rrule, rscale, vcal.
What to do: compare both files by rr-calendars OLD NEW, or take one event out with its instances by examples/one_event.awk.
";

pub const EXPLAIN_NO_START: &[u8] = b"NoStart

It comes if there is no DTSTART, or no start in a Graph event.
Languages: rrule, rscale, vcal, graph.
What to do: add it: a rule alone says no dates. If the text is an answer of Graph with a list value, compare whole lists by rr-calendars OLD graph:NEW, or hand over one of its events, as jq '.value[0]' FILE prints it, without its cancelled and changed instances.
";

pub const EXPLAIN_BAD_MOMENT: &[u8] = b"BadMoment LINE

It comes if a date or a moment is malformed, or is no date of the years 1 to 9999, as it stands or with the offset added.
Languages: rrule, rscale, vcal, list.
What to do: mend it: 20240229, 20240229T093000, in a list 2024-02-29.
";

pub const EXPLAIN_MIXED_KINDS: &[u8] = b"MixedKinds LINE

It comes if the start is a date and this value a moment, or the other way round.
Languages: rrule, vcal, list.
What to do: write both as dates, or both as moments.
";

pub const EXPLAIN_BAD_RULE: &[u8] = b"BadRule LINE

It comes if a rule is not in the grammar of its language.
Languages: rrule, rscale, vcal.
What to do: mend it. Is it the right language? A file with VERSION:1.0 is vcal.
";

pub const EXPLAIN_PART_TWICE: &[u8] = b"PartTwice LINE

It comes if a part of a rule, or the start, stands twice.
Languages: rrule, rscale, vcal.
What to do: keep one of them.
";

pub const EXPLAIN_NUMBER_RANGE: &[u8] = b"NumberRange LINE

It comes if a number of a rule is below or above what its part allows.
Languages: rrule, rscale, vcal.
What to do: write a number that the part allows.
";

pub const EXPLAIN_UNTIL_AND_COUNT: &[u8] = b"UntilAndCount

It comes if a rule has both UNTIL and COUNT.
Languages: rrule, rscale.
What to do: keep the one that comes first.
";

pub const EXPLAIN_NOT_ALLOWED: &[u8] = b"NotAllowed

It comes if parts stand together that RFC 5545, section 3.3.10, does not allow, or a rule of hours, minutes or seconds has a date as its start.
Languages: rrule.
What to do: write BYMONTHDAY in a monthly rule, BYYEARDAY and BYWEEKNO in a yearly one; give the start a time.
";

pub const EXPLAIN_LEAP_SECOND: &[u8] = b"LeapSecond

It comes if BYSECOND lists 60.
Languages: rrule.
What to do: leave 60 out: local time has no such second in rr.
";

pub const EXPLAIN_UTC_MOMENT: &[u8] = b"UtcMoment

It comes if a moment has a Z, the start is local time, and no offset is stated; after @zone no zone of the file turns it.
Languages: rrule, rscale, vcal.
What to do: read it by the file's own zone, as in rrule@zone:FILE, or state how far local time is ahead of UTC at that moment, as in rrule@+01:00:FILE.
";

pub const EXPLAIN_UNTIL_KIND: &[u8] = b"UntilKind

It comes if UNTIL is a date and the start a moment, or the other way round.
Languages: rrule, rscale, vcal.
What to do: RFC 5545 asks for the same kind. Decide whether the last day counts, and write that moment.
";

pub const EXPLAIN_UNTIL_BEFORE_START: &[u8] = b"UntilBeforeStart

It comes if UNTIL is before the start.
Languages: rrule, rscale, vcal.
What to do: is the year right, and the offset?.
";

pub const EXPLAIN_NOT_SYNCHRONISED: &[u8] = b"NotSynchronised RULE

It comes if the rule does not choose the start.
Languages: rrule, rscale, vcal.
What to do: move the start to the first day that the rule chooses; if it shall count too, keep its day as an RDATE line.
";

pub const EXPLAIN_PERIOD_VALUE: &[u8] = b"PeriodValue

It comes if an RDATE is a period, a moment with an end or a length.
Languages: rrule, vcal.
What to do: write the moment alone.
";

pub const EXPLAIN_EXTENDED: &[u8] = b"Extended

It comes if a rule has RSCALE or SKIP (RFC 7529).
Languages: rrule.
What to do: read it as rscale, or write it without them; for the last day of each month BYMONTHDAY=-1.

Extended

It comes if the rule has no RSCALE, or another calendar than GREGORIAN, another frequency than MONTHLY and YEARLY, a part that is not read, or a day of the month from the back; or there is a line RDATE, EXDATE or EXRULE.
Languages: rscale.
What to do: read a text without RSCALE as rrule.
";

pub const EXPLAIN_BAD_JSON: &[u8] = b"BadJson

It comes if the text is no JSON, is nested more than 127 levels deep, or is no object.
Languages: graph.
What to do: hand one event over and not a list, as jq '.[0]' FILE prints it.
";

pub const EXPLAIN_BAD_MEMBER: &[u8] = b"BadMember MEMBER

It comes if a member of the event is missing or has no value that Graph allows.
Languages: graph.
What to do: mend it.
";

pub const EXPLAIN_START_DIFFERS: &[u8] = b"StartDiffers

It comes if the date of start is not startDate of the range.
Languages: graph.
What to do: if start is in UTC, state the offset of local time at the start, as in graph@-08:00:FILE.
";

pub const EXPLAIN_NO_OCCURRENCE: &[u8] = b"NoOccurrence

It comes if the pattern has no day in its range.
Languages: graph.
What to do: is the endDate right?.
";

pub const EXPLAIN_INTERVAL_TOO_LARGE: &[u8] = b"IntervalTooLarge

It comes if an interval is above 999 (daily, weekly) or 99 (monthly, yearly).
Languages: graph.
What to do: Graph has no such pattern; rrule reads longer intervals.
";

pub const EXPLAIN_CYCLE_TOO_LONG: &[u8] = b"CycleTooLong

It comes if the series repeats after more than 16,777,216 days (some 45,900 years); of both: the two repeat together only after more, and the command is neither equal nor differences.
Languages: all but canon; of both: all.
What to do: of both: ask equal. Otherwise add an UNTIL of your own and ask again; list does not help, since it asks for the cycle too.
";

pub const EXPLAIN_COUNTED_TOO_FAR: &[u8] = b"CountedTooFar

It comes if the last occurrence of a rule with COUNT, an excluded one too, lies more than 16,777,216 days after the start, or the rule has fewer occurrences.
Languages: all but canon.
What to do: is the COUNT right? For a rule without end leave it out.
";

pub const EXPLAIN_TOO_MANY_MOMENTS: &[u8] = b"TooManyMoments

It comes if the different sets of seconds that its days have hold more than 16,777,216 seconds in all; of both: those of what union, common or minus would print.
Languages: all but canon and rscale; of both: all.
What to do: compare one rule at a time.
";

pub const EXPLAIN_NOT_SAYABLE: &[u8] = b"NotSayable

It comes if no single rule or pattern that is looked for has these occurrences, or on split the parts that are tried do not lead there; it is no fault of the series.
Languages: all.
What to do: ask for several parts: for Microsoft Graph several series, as rr split 12 graph rrule:FILE, and for vCalendar 1.0 several events, as rr split 12 vcal rrule:FILE; if there are none, cut the series at a last date by rr common, and split that.
";

pub const EXPLAIN_TOO_MANY_PARTS: &[u8] = b"TooManyParts

It comes if there are more than 16 rules, RRULE and EXRULE together, or more than 10,000 dates; in rscale there is a second rule.
Languages: rrule, rscale, vcal, list.
What to do: divide the series, and compare part by part.
";

pub const EXPLAIN_NOT_CANONICAL: &[u8] = b"NotCanonical

It comes if the bytes, without a byte order mark at the front, are not what canon or canon1 prints for any set within the bounds that the manual states.
Languages: canon.
What to do: copy the whole text, with the line feed at its end and no carriage returns; or print it anew.
";

pub const EXPLAIN_MIXED_SETS: &[u8] = b"MixedSets

It comes if the union of dates and moments is asked for, and neither set is empty; always of both.
Languages: all.
What to do: write both as dates, or both as moments.
";

pub const EXPLAIN_PAST_RANGE: &[u8] = b"PastRange

It comes if the occurrence of this number exists, but its day is past 8213722990-12-19, which is 3,000,000,000,000 days after 1970-01-01.
Languages: all.
What to do: ask for a smaller number.
";

pub const EXPLAIN_NOT_RISING: &[u8] = b"NotRising LINE

It comes if a date of a list is not after the one before it.
Languages: list.
What to do: sort -u FILE.
";

const COMMAND_PAGES: [Page; 23] = [
    Page {
        name: "equal",
        text: HELP_EQUAL,
    },
    Page {
        name: "within",
        text: HELP_WITHIN,
    },
    Page {
        name: "disjoint",
        text: HELP_DISJOINT,
    },
    Page {
        name: "clear",
        text: HELP_CLEAR,
    },
    Page {
        name: "differences",
        text: HELP_DIFFERENCES,
    },
    Page {
        name: "check",
        text: HELP_CHECK,
    },
    Page {
        name: "list",
        text: HELP_LIST,
    },
    Page {
        name: "from",
        text: HELP_FROM,
    },
    Page {
        name: "between",
        text: HELP_BETWEEN,
    },
    Page {
        name: "nth",
        text: HELP_NTH,
    },
    Page {
        name: "rank",
        text: HELP_NTH,
    },
    Page {
        name: "canon",
        text: HELP_CANON,
    },
    Page {
        name: "canon1",
        text: HELP_CANON,
    },
    Page {
        name: "union",
        text: HELP_UNION,
    },
    Page {
        name: "common",
        text: HELP_UNION,
    },
    Page {
        name: "minus",
        text: HELP_UNION,
    },
    Page {
        name: "translate",
        text: HELP_TRANSLATE,
    },
    Page {
        name: "split",
        text: HELP_SPLIT,
    },
    Page {
        name: "infer",
        text: HELP_INFER,
    },
    Page {
        name: "drill",
        text: HELP_DRILL,
    },
    Page {
        name: "help",
        text: HELP_HELP,
    },
    Page {
        name: "explain",
        text: HELP_HELP,
    },
    Page {
        name: "version",
        text: HELP_HELP,
    },
];

/// What a command prints and takes, as `help COMMAND` says it; None exactly if there is no command of this name.
pub fn help_of(name: &str) -> Option<&'static [u8]>
    ensures { option_map (λ t. t.now) result ≡ help_of name.now }
{
    page_in(&COMMAND_PAGES, name)
}

const REFUSAL_PAGES: [Page; 33] = [
    Page {
        name: "TooLong",
        text: EXPLAIN_TOO_LONG,
    },
    Page {
        name: "NotText",
        text: EXPLAIN_NOT_TEXT,
    },
    Page {
        name: "BadLine",
        text: EXPLAIN_BAD_LINE,
    },
    Page {
        name: "SeveralEvents",
        text: EXPLAIN_SEVERAL_EVENTS,
    },
    Page {
        name: "NoStart",
        text: EXPLAIN_NO_START,
    },
    Page {
        name: "BadMoment",
        text: EXPLAIN_BAD_MOMENT,
    },
    Page {
        name: "MixedKinds",
        text: EXPLAIN_MIXED_KINDS,
    },
    Page {
        name: "BadRule",
        text: EXPLAIN_BAD_RULE,
    },
    Page {
        name: "PartTwice",
        text: EXPLAIN_PART_TWICE,
    },
    Page {
        name: "NumberRange",
        text: EXPLAIN_NUMBER_RANGE,
    },
    Page {
        name: "UntilAndCount",
        text: EXPLAIN_UNTIL_AND_COUNT,
    },
    Page {
        name: "NotAllowed",
        text: EXPLAIN_NOT_ALLOWED,
    },
    Page {
        name: "LeapSecond",
        text: EXPLAIN_LEAP_SECOND,
    },
    Page {
        name: "UtcMoment",
        text: EXPLAIN_UTC_MOMENT,
    },
    Page {
        name: "UntilKind",
        text: EXPLAIN_UNTIL_KIND,
    },
    Page {
        name: "UntilBeforeStart",
        text: EXPLAIN_UNTIL_BEFORE_START,
    },
    Page {
        name: "NotSynchronised",
        text: EXPLAIN_NOT_SYNCHRONISED,
    },
    Page {
        name: "PeriodValue",
        text: EXPLAIN_PERIOD_VALUE,
    },
    Page {
        name: "Extended",
        text: EXPLAIN_EXTENDED,
    },
    Page {
        name: "BadJson",
        text: EXPLAIN_BAD_JSON,
    },
    Page {
        name: "BadMember",
        text: EXPLAIN_BAD_MEMBER,
    },
    Page {
        name: "StartDiffers",
        text: EXPLAIN_START_DIFFERS,
    },
    Page {
        name: "NoOccurrence",
        text: EXPLAIN_NO_OCCURRENCE,
    },
    Page {
        name: "IntervalTooLarge",
        text: EXPLAIN_INTERVAL_TOO_LARGE,
    },
    Page {
        name: "CycleTooLong",
        text: EXPLAIN_CYCLE_TOO_LONG,
    },
    Page {
        name: "CountedTooFar",
        text: EXPLAIN_COUNTED_TOO_FAR,
    },
    Page {
        name: "TooManyMoments",
        text: EXPLAIN_TOO_MANY_MOMENTS,
    },
    Page {
        name: "NotSayable",
        text: EXPLAIN_NOT_SAYABLE,
    },
    Page {
        name: "TooManyParts",
        text: EXPLAIN_TOO_MANY_PARTS,
    },
    Page {
        name: "NotCanonical",
        text: EXPLAIN_NOT_CANONICAL,
    },
    Page {
        name: "MixedSets",
        text: EXPLAIN_MIXED_SETS,
    },
    Page {
        name: "PastRange",
        text: EXPLAIN_PAST_RANGE,
    },
    Page {
        name: "NotRising",
        text: EXPLAIN_NOT_RISING,
    },
];

/// What a refusal means and what to do, as `explain NAME` says it; None exactly if there is no refusal of this name.
pub fn explanation_of(name: &str) -> Option<&'static [u8]>
    ensures { option_map (λ t. t.now) result ≡ explanation_of name.now }
{
    page_in(&REFUSAL_PAGES, name)
}
// commands.txt: END
