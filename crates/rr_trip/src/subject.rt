// What a line of a report is of.
ghost use Rattle.std.specs.Prelude.{◌≡◌, ◌<◌, length};
ghost use Rattle.rr_trip.specs.Found.{IsWithin};
ghost use Rattle.rr_trip.specs.Report.{IsSubject, has_other_title};
ghost use Rattle.rr_trip.specs.Subjects.{subject_in};

use crate::found::Found;
use crate::likeness::Likeness;
use rr_groups::Group;
use rr_seam::Key;

/// The key of events in B, if it is another one than in A.
#[derive(Clone, Copy)]
pub struct SubjectPartner<'a> {
    /// The key that they have in B.
    pub key: &'a Key,
    /// Whether their title is another one too.
    pub has_other_title: bool,
}

/// What a line is of.
#[derive(Clone, Copy)]
pub struct LineSubject<'a> {
    /// The key of the events, that of A if both calendars have some.
    pub key: &'a Key,
    /// The indexes of the events in A.
    pub a: &'a [usize],
    /// The indexes of the events in B.
    pub b: &'a [usize],
    /// Their key in B, if it is another one.
    pub partner: Option<SubjectPartner<'a>>,
}

impl Likeness {
    // Whether events that are alike so have other titles.
    fn has_other_title(self) -> bool
        ensures { result ≡ has_other_title self }
    {
        matches!(self, Likeness::OtherTitle)
    }
}

// The line of a group of A whose events are found again in B.
fn pair_subject<'a>(groups: &'a [Group], index: usize, found: Found) -> LineSubject<'a>
    requires index { index < length groups.now }
    requires found { found.index < length groups.now }
    ensures { IsSubject groups.now index (Some found) (subject_in result) }
{
    let group = &groups[index];
    let other = &groups[found.index];
    LineSubject {
        key: &group.key,
        a: group.a.as_slice(),
        b: other.b.as_slice(),
        partner: Some(SubjectPartner {
            key: &other.key,
            has_other_title: found.likeness.has_other_title(),
        }),
    }
}

/// What the line of a group is of, by what its events are found again as in B.
pub fn subject_of<'a>(groups: &'a [Group], index: usize, found: Option<Found>) -> LineSubject<'a>
    requires index { index < length groups.now }
    requires found { IsWithin (length groups.now) found }
    ensures { IsSubject groups.now index found (subject_in result) }
{
    match found {
        Some(found) => pair_subject(groups, index, found),
        None => {
            let group = &groups[index];
            LineSubject {
                key: &group.key,
                a: group.a.as_slice(),
                b: group.b.as_slice(),
                partner: None,
            }
        }
    }
}
