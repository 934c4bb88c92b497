// What is said of the program itself, by the words that ask for it.
ghost use Rattle.std.specs.Prelude.{◌≡◌, IfOk, option_map};
ghost use Rattle.rr_answer.specs.Answer.{page_said};
ghost use Rattle.rr_answer.specs.Help.{explain_page, help_page, version_page};
ghost use Rattle.rr_answer.specs.Outcome.{answer_of};
ghost use Rattle.rr_answer.specs.Parsed.{words_of};

use crate::conclusion::Conclusion;
use crate::outcome::{AnswerText, Outcome};
use crate::pages::{HELP, VERSION, explanation_of, help_of};
use rr_model::NoMemory;
use std::alloc::Global;

/// What `help` prints, by the words after it: the page of all commands, or that of one.
pub fn help_page(words: &[&str]) -> Option<&'static [u8]>
    ensures { option_map (λ t. t.now) result ≡ help_page (words_of words.now) }
{
    match words {
        [] => Some(HELP),
        [name] => help_of(name),
        _ => None,
    }
}

/// What `version` prints, by the words after it, of which there are none.
pub fn version_page(words: &[&str]) -> Option<&'static [u8]>
    ensures { option_map (λ t. t.now) result ≡ version_page (words_of words.now) }
{
    match words {
        [] => Some(VERSION),
        _ => None,
    }
}

/// What `explain` prints, by the words after it: the page of a refusal.
pub fn explain_page(words: &[&str]) -> Option<&'static [u8]>
    ensures { option_map (λ t. t.now) result ≡ explain_page (words_of words.now) }
{
    match words {
        [name] => explanation_of(name),
        _ => None,
    }
}

/// A page that the program has of itself.
pub fn page_outcome(alloc: Global, page: &[u8]) -> Result<Outcome, NoMemory>
    ensures { IfOk result (λ x. answer_of x ≡ page_said page.now) }
{
    Ok(Outcome {
        conclusion: Conclusion::Yes,
        text: AnswerText::Bytes(Vec::from_slice(alloc, page)?),
    })
}
