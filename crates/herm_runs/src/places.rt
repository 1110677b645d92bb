// Laws of places.

ghost use Rattle.herm_runs.specs.laws.RunLaws.{DoneFits, RecordsFit, RecordsLead};

/// What is done of what a process wants fits what is at the place.
pub fn done_fits()
    ensures fits { DoneFits }
{}

/// An action that fits what is at a place, recorded, fits what the place's history tells, and leads to what it tells
/// then: so a place with cells and its history speak of one object.
pub fn records_tell()
    ensures fits { RecordsFit }
    ensures leads { RecordsLead }
{}
