// What names of zones mean in both calendars, each looked up once.
ghost use Rattle.std.specs.Prelude.{◌≡◌, [], All, option_map, IfOk, IfSome, OnOk};
ghost use Rattle.rr_true.specs.Names.{Means};
ghost use Rattle.rr_true.specs.Changes.{offset_of};
ghost use Rattle.rr_trip.specs.Known.{AreApartAs, AreKnown, AreNamedAt, AreZonesApart, HasSameZones, IsKnownZone, IsNamedAt, IsPairAt};
ghost use Rattle.rr_trip.specs.Zoned.{Meaning, meaning_of};

use rr_model::{Bytes, NoMemory};
use rr_shapes::{Pair, PairNumbers};
use rr_true::{Apart, Offsets, ZoneNames, apart};
use std::alloc::Global;
use std::collections::BTreeMap;

/// A name of a zone in one calendar.
#[derive(Drop)]
pub struct NamedZone {
    /// The name, as the calendar writes it.
    pub name: Bytes,
    /// What it means, if it means anything.
    pub offsets: Option<Offsets>,
}

/// The names of zones in one calendar that were looked up.
#[derive(Drop)]
pub struct KnownNames {
    /// What they mean, in the order in which they were looked up.
    pub zones: Vec<NamedZone>,
    // Their indexes in that order.
    indexes: BTreeMap<Vec<u8>, usize>,
}

/// From when on two zones, one of each calendar, are apart by as much as ever after.
#[derive(Drop)]
pub struct PairOfZones {
    /// The name of the zone in A.
    pub a: Bytes,
    /// The name of the zone in B.
    pub b: Bytes,
    /// From when on, and by how much.
    pub apart: Option<Apart>,
}

/// What names of zones mean in both calendars, as far as they were looked up.
#[derive(Drop)]
pub struct KnownZones {
    /// The names of zones that A states.
    pub a: KnownNames,
    /// The names of zones that B states.
    pub b: KnownNames,
    /// Pairs of one of A and one of B.
    pub pairs: Vec<PairOfZones>,
    // Their indexes in that list, by those of the two names.
    indexes: PairNumbers,
}

/// Where the names of a key are kept, and from when on their zones are apart by as much as ever after.
#[derive(Clone, Copy)]
pub struct ZoneIndexes {
    /// The index of the name in A.
    pub a: usize,
    /// The index of the name in B.
    pub b: usize,
    /// From when on, and by how much, if both names mean something.
    pub apart: Option<Apart>,
}

// What a name means in a calendar: `Z` is UTC in each.
fn offsets_of<N: ZoneNames>(
    alloc: Global,
    names: &N,
    name: &[u8],
) -> Result<Option<Offsets>, NoMemory>
    ensures { IfOk result (λ found. Means (meaning_of (N.meaning names.now) name.now)
        (option_map offset_of found)) }
{
    if name == b"Z".as_slice() {
        return Ok(Some(Offsets::utc(alloc)));
    }
    names.offsets(alloc, name)
}

// Remembers the index of a name.
fn put_index(
    alloc: Global,
    indexes: &mut BTreeMap<Vec<u8>, usize>,
    name: &[u8],
    index: usize,
) -> Result<(), NoMemory> {
    match indexes.insert(Vec::from_slice(alloc, name)?, index) {
        Ok(_) => Ok(()),
        Err(_) => Err(NoMemory),
    }
}

impl KnownNames {
    /// A store in which no name of the calendar has been looked up yet.
    pub fn new(alloc: Global) -> KnownNames
        ensures { result.zones.items ≡ [] }
    {
        KnownNames {
            zones: Vec::new(alloc),
            indexes: BTreeMap::new(alloc),
        }
    }

    // The index of a name, if it was looked up.
    fn known_index(&self, name: &[u8]) -> Option<usize>
        ensures { IfSome result (IsNamedAt self.now.zones.items name.now) }
    {
        let index = *self.indexes.get(name)?;
        let zone = self.zones.get(index)?;
        if zone.name.as_slice() == name {
            Some(index)
        } else {
            None
        }
    }

    /// The index of a name, which is looked up if it was not.
    pub fn index_of<N: ZoneNames>(
        &mut self,
        alloc: Global,
        names: &N,
        name: &[u8],
    ) -> Result<usize, NoMemory>
        requires known { All (IsKnownZone (N.meaning names.now)) self.old.zones.items }
        ensures known { OnOk result (All (IsKnownZone (N.meaning names.now)) self.new.zones.items) }
        ensures index { IfOk result (IsNamedAt self.new.zones.items name.now) }
    {
        if let Some(index) = self.known_index(name) {
            return Ok(index);
        }
        let offsets = offsets_of(alloc, names, name)?;
        let index = self.zones.len();
        self.zones.push(NamedZone {
            name: Bytes::of(alloc, name)?,
            offsets,
        })?;
        put_index(alloc, &mut self.indexes, name, index)?;
        Ok(index)
    }
}

// From when on the zones of two names are apart, if it was found out before.
fn known_apart(
    indexes: &mut PairNumbers,
    pairs: &[PairOfZones],
    pair: Pair,
    a: &[u8],
    b: &[u8],
) -> Option<Option<Apart>>
    ensures { IfSome result (IsPairAt pairs.now a.now b.now) }
{
    let index = indexes.get(pair)?;
    let known = pairs.get(index)?;
    if known.a.as_slice() == a && known.b.as_slice() == b {
        Some(known.apart)
    } else {
        None
    }
}

// From when on two zones are apart by as much as ever after.
fn found_apart(a: &NamedZone, b: &NamedZone) -> Option<Apart>
    ensures { AreZonesApart a.now b.now result }
{
    match (&a.offsets, &b.offsets) {
        (Some(a), Some(b)) => apart(a, b),
        (None, _) | (_, None) => None,
    }
}

impl KnownZones {
    /// A store in which no name has been looked up yet.
    pub fn new(alloc: Global) -> KnownZones
        ensures { (means_a means_b : Meaning) → AreKnown means_a means_b result }
    {
        KnownZones {
            a: KnownNames::new(alloc),
            b: KnownNames::new(alloc),
            pairs: Vec::new(alloc),
            indexes: PairNumbers::new(alloc),
        }
    }

    // From when on the zones of two names at these indexes are apart by as much as ever after.
    fn apart_at(
        &mut self,
        alloc: Global,
        pair: Pair,
        a: &[u8],
        b: &[u8],
    ) -> Result<Option<Apart>, NoMemory>
        requires named_a { IsNamedAt self.old.a.zones.items a.now pair.a }
        requires named_b { IsNamedAt self.old.b.zones.items b.now pair.b }
        ensures zones { HasSameZones self.old self.new }
        ensures known { (means_a means_b : Meaning) → AreKnown means_a means_b self.old
            → OnOk result (AreKnown means_a means_b self.new) }
        ensures apart { (means_a means_b : Meaning) → AreKnown means_a means_b self.old
            → IfOk result (AreApartAs means_a means_b a.now b.now) }
    {
        if let Some(apart) = known_apart(&mut self.indexes, &self.pairs, pair, a, b) {
            return Ok(apart);
        }
        let found = found_apart(&self.a.zones[pair.a], &self.b.zones[pair.b]);
        let index = self.pairs.len();
        self.pairs.push(PairOfZones {
            a: Bytes::of(alloc, a)?,
            b: Bytes::of(alloc, b)?,
            apart: found,
        })?;
        self.indexes.put(pair, index)?;
        Ok(found)
    }

    /// Where two names are kept, one of each calendar, which are looked up if they were not.
    pub fn look_up<M: ZoneNames, N: ZoneNames>(
        &mut self,
        alloc: Global,
        names_a: &M,
        names_b: &N,
        a: &[u8],
        b: &[u8],
    ) -> Result<ZoneIndexes, NoMemory>
        requires { AreKnown (M.meaning names_a.now) (N.meaning names_b.now) self.old }
        ensures known { OnOk result
            (AreKnown (M.meaning names_a.now) (N.meaning names_b.now) self.new) }
        ensures named { IfOk result (AreNamedAt (M.meaning names_a.now) (N.meaning names_b.now)
            a.now b.now self.new) }
    {
        let of_a = self.a.index_of(alloc, names_a, a)?;
        let of_b = self.b.index_of(alloc, names_b, b)?;
        let pair = Pair { a: of_a, b: of_b };
        let apart = self.apart_at(alloc, pair, a, b)?;
        Ok(ZoneIndexes {
            a: of_a,
            b: of_b,
            apart,
        })
    }
}
