// The end of a rule in English (RFC 5545, section 3.3.10, UNTIL and COUNT).
ghost use Rattle.std.specs.Prelude.{◌≡◌, ◌++◌, OnOk};
ghost use Rattle.rr_model.specs.Moment.Years.{IsInYears};
ghost use Rattle.rr_model.specs.Rule.Validity.{EndsInYears};
ghost use Rattle.rr_wording.specs.Rules.{end_words, until_words};

use crate::dates::push_moment_in_years;
use crate::numbers::{push, push_counted};
use rr_model::{End, Kind, NoMemory};

// Appends UNTIL: `, until 5 March 2025 at 09:30`.
#[tactic(auto, unfolding(crate::specs::Rules::until_words))]
fn push_until(out: &mut Vec<u8>, kind: Kind, at: i64) -> Result<(), NoMemory>
    requires { IsInYears kind at }
    ensures { OnOk result (out.new.items ≡ out.old.items ++ until_words kind at) }
{
    push(out, b", until ")?;
    push_moment_in_years(out, kind, at)
}

// Appends UNTIL and COUNT, those that there are.
#[tactic(auto, unfolding(crate::specs::Rules::end_words))]
pub(crate) fn push_end(out: &mut Vec<u8>, end: End) -> Result<(), NoMemory>
    requires { EndsInYears end }
    ensures { OnOk result (out.new.items ≡ out.old.items ++ end_words end) }
{
    match end {
        End::Never => Ok(()),
        End::Until { kind, at } => push_until(out, kind, at),
        End::Count(count) => {
            push(out, b", ")?;
            push_counted(out, count, b"time")
        }
        End::Both { kind, at, count } => {
            push_until(out, kind, at)?;
            push(out, b", at most ")?;
            push_counted(out, count, b"time")
        }
    }
}
