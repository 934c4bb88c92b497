// What the words ask, worked out over the files.
ghost use Rattle.std.specs.Prelude.{◌≡◌, ◌++◌, ◌∷◌, [], IfOk, IfSome, IsErrOf, option_map};
ghost use Rattle.rr_io.specs.Outside.{KeepsHeld};
ghost use Rattle.rr_compare.specs.Outcomes.{outcome_is};
ghost use Rattle.rr_compare.specs.Parsed.{asked_in, asked_of_words, comparison_in, word_in};
ghost use Rattle.rr_calendars.specs.Fetched.{texts_of};
ghost use Rattle.rr_calendars.specs.Run.{AreFilesOf, GainsFile, GainsName, IsAnswerTo, IsEnding, content, content_named};

use rr_compare::{Asked, Outcome, Request, Texts, answer_to, parse};
use rr_io::{FetchError, Source};
use rr_seam::MAX_FILE;
use rr_trip::Watch;
use std::alloc::Global;

// The bytes of a file.
fn fetch<S: Source>(alloc: Global, name: &str, source: &mut S) -> Result<Vec<u8>, FetchError>
    ensures bytes { IfOk result (λ v. IfSome (content (S.held source.old) name.now)
        (λ bytes. v.items ≡ bytes)) }
    ensures failed { IsErrOf result FetchError.Failed
        → S.failed source.new ≡ S.failed source.old ++ name.now ∷ [] }
    ensures kept { (IsErrOf result FetchError.Failed → ⊥)
        → S.failed source.new ≡ S.failed source.old }
    ensures held { KeepsHeld (S.held source.old) (S.held source.new) }
{
    source.fetch_within(alloc, name, MAX_FILE)
}

// The bytes of a file, if its name is there; otherwise none.
fn fetch_named<S: Source>(
    alloc: Global,
    name: Option<&str>,
    source: &mut S,
) -> Result<Vec<u8>, FetchError>
    ensures bytes { IfOk result (λ v. IfSome (content_named (S.held source.old) (word_in name.entry))
        (λ bytes. v.items ≡ bytes)) }
    ensures failed { IsErrOf result FetchError.Failed → GainsName (word_in name.entry)
        (S.failed source.old) (S.failed source.new) }
    ensures kept { (IsErrOf result FetchError.Failed → ⊥)
        → S.failed source.new ≡ S.failed source.old }
{
    match name {
        Some(name) => fetch(alloc, name, source),
        None => Ok(Vec::new(alloc)),
    }
}

// The bytes of the files.
#[derive(Drop)]
struct Files {
    old: Vec<u8>,
    new: Vec<u8>,
    zones: Vec<u8>,
}

// The bytes of the files that a comparison names, which are fetched in order.
fn fetch_all<S: Source>(
    alloc: Global,
    request: Request,
    source: &mut S,
) -> Result<Files, FetchError>
    ensures files { IfOk result (λ f. AreFilesOf (comparison_in request.entry) (S.held source.old)
        (texts_of f)) }
    ensures failed { IsErrOf result FetchError.Failed
        → GainsFile (comparison_in request.entry) S.failed source.old source.new }
    ensures kept { (IsErrOf result FetchError.Failed → ⊥)
        → S.failed source.new ≡ S.failed source.old }
{
    let old = fetch(alloc, request.old.name, source)?;
    let new = fetch(alloc, request.new.name, source)?;
    let zones = fetch_named(alloc, request.zones, source)?;
    Ok(Files { old, new, zones })
}

// The bytes of the files that are asked for, and none if no comparison is.
fn fetch_asked<S: Source>(
    alloc: Global,
    asked: Option<Asked>,
    source: &mut S,
) -> Result<Files, FetchError>
    ensures files { IfOk result (λ f. AreFilesOf (option_map asked_in asked.entry)
        (S.held source.old) (texts_of f)) }
    ensures failed { IsErrOf result FetchError.Failed
        → GainsFile (option_map asked_in asked.entry) S.failed source.old source.new }
    ensures kept { (IsErrOf result FetchError.Failed → ⊥)
        → S.failed source.new ≡ S.failed source.old }
{
    match asked {
        None | Some(Asked::Help | Asked::Version) => Ok(Files {
            old: Vec::new(alloc),
            new: Vec::new(alloc),
            zones: Vec::new(alloc),
        }),
        Some(Asked::Comparison(request)) => fetch_all(alloc, request, source),
    }
}

/// What the words ask, worked out over the files, which are fetched in order. `Failed` comes if a file cannot be
/// fetched.
pub fn outcome_of<S: Source, W: Watch>(
    alloc: Global,
    words: &[&str],
    source: &mut S,
    watch: &mut W,
) -> Result<Outcome, FetchError>
    ensures answer { IfOk result (λ x. IsAnswerTo (asked_of_words words.now) (S.held source.old)
        (outcome_is x)) }
    ensures ending { IfOk result (λ x. IsEnding (asked_of_words words.now) x.status) }
    ensures failed { IsErrOf result FetchError.Failed
        → GainsFile (asked_of_words words.now) S.failed source.old source.new }
    ensures kept { (IsErrOf result FetchError.Failed → ⊥)
        → S.failed source.new ≡ S.failed source.old }
{
    let asked = parse(words);
    let files = fetch_asked(alloc, asked, source)?;
    let texts = Texts {
        old: files.old.as_slice(),
        new: files.new.as_slice(),
        zones: files.zones.as_slice(),
    };
    Ok(answer_to(alloc, asked, texts, watch)?)
}
