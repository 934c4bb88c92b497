// What the names of zones in a list mean, each looked up once.
ghost use Rattle.std.specs.Prelude.{◌≡◌, All, IfOk, OnOk, map};
ghost use Rattle.serde_json.specs.View.{view};
ghost use Rattle.rr_graphfile.specs.Known.{AreMeant, HasName, IsTurnedAlike, Keeps, KeepsNames, known_meaning};
ghost use Rattle.rr_graphfile.specs.Parsed.{ahead_in};
ghost use Rattle.rr_graphfile.specs.Turning.{meaning_of};

use crate::turning::turning_name;
use rr_model::NoMemory;
use rr_true::{Offsets, ZoneNames};
use serde_json::Value;
use std::alloc::Global;
use std::collections::BTreeMap;

/// Names of zones with their offsets, if they mean some.
pub(crate) type ZoneMap = BTreeMap<String, Option<Offsets>>;

/// The offsets that a name means by what is kept; None if it is empty.
pub(crate) fn known_offsets<'z>(zones: &'z ZoneMap, name: &str) -> Option<&'z Offsets>
    ensures { ahead_in result ≡ meaning_of (known_meaning zones.now) name.now }
{
    if name.is_empty() {
        return None;
    }
    match zones.get(name) {
        None => None,
        Some(None) => None,
        Some(Some(offsets)) => Some(offsets),
    }
}

// Keeps the offsets of a name.
fn keep(
    alloc: Global,
    zones: &mut ZoneMap,
    name: &str,
    offsets: Option<Offsets>,
) -> Result<(), NoMemory>
    ensures { OnOk result (Keeps zones.old name.now offsets zones.new) }
{
    match zones.insert(String::from_str(alloc, name)?, offsets) {
        Ok(_) => Ok(()),
        Err(_) => Err(NoMemory),
    }
}

// Looks a name up, unless it is empty or kept.
#[tactic(auto, using(crate::proofs::KnownLemmas::name_kept))]
fn learn<N: ZoneNames>(
    alloc: Global,
    names: &N,
    zones: &mut ZoneMap,
    name: &str,
) -> Result<(), NoMemory>
    requires { AreMeant (N.meaning names.now) zones.old }
    ensures meant { OnOk result (AreMeant (N.meaning names.now) zones.new) }
    ensures keeps { OnOk result (KeepsNames zones.old zones.new) }
    ensures has { OnOk result (HasName zones.new name.now) }
{
    if name.is_empty() {
        return Ok(());
    }
    if zones.contains_key(name) {
        return Ok(());
    }
    let offsets = names.offsets(alloc, name.as_bytes())?;
    keep(alloc, zones, name, offsets)
}

/// What the names of the zones that turn these events mean.
pub(crate) fn zones_of_items<N: ZoneNames>(
    alloc: Global,
    names: &N,
    items: &[Value],
) -> Result<ZoneMap, NoMemory>
    ensures { IfOk result (λ zones. All (IsTurnedAlike (known_meaning zones) (N.meaning names.now))
        (map view items.now)) }
{
    let mut zones = BTreeMap::new(alloc);
    for event in items {
        learn(alloc, names, &mut zones, turning_name(event))?;
    }
    Ok(zones)
}
