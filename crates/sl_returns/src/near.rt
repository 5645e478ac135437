//! The Land and the party of a list, which are looked for first where they mostly stand.

ghost use Rattle.std.specs.Prelude.{◌≡◌, ◌<◌, Some, IfOk, IfErr, OnOk, length};
ghost use Rattle.sl_returns.specs.Cells.{number_in};
ghost use Rattle.sl_returns.specs.Tests.{Pass, FailBy, known_name_tests};

use crate::cells::known_name;
use crate::fault::RecordFault;
use crate::schema::{LAND, PARTY};
use sl_ratio::Names;

// Where the next list mostly stands: in the Land of the last one, at the party after it.
#[derive(Clone, Copy)]
pub(crate) struct Near {
    land: usize,
    party: usize,
}

impl Near {
    // Where the first list mostly stands.
    pub(crate) fn first() -> Near {
        Near { land: 0, party: 0 }
    }

    // Where the list after this one mostly stands.
    pub(crate) fn behind(land: usize, party: usize) -> Near {
        Near {
            land,
            party: party.saturating_add(1),
        }
    }

    // The number of the Land of that name, which is to be known.
    pub(crate) fn known_land(self, lands: &Names, name: &[u8]) -> Result<usize, RecordFault>
        ensures passed { OnOk result (Pass (known_name_tests lands.now.names LAND name.now)) }
        ensures number { IfOk result (λ land. number_in lands.now.names name.now ≡ Some land) }
        ensures within { IfOk result (λ land. land < length lands.now.names) }
        ensures failed { IfErr result (FailBy (known_name_tests lands.now.names LAND name.now)) }
    {
        known_at(lands, self.land, LAND, name)
    }

    // The number of the party of that name, which is to be known.
    pub(crate) fn known_party(self, parties: &Names, name: &[u8]) -> Result<usize, RecordFault>
        ensures passed { OnOk result (Pass (known_name_tests parties.now.names PARTY name.now)) }
        ensures number { IfOk result (λ party. number_in parties.now.names name.now ≡ Some party) }
        ensures within { IfOk result (λ party. party < length parties.now.names) }
        ensures failed { IfErr result (FailBy (known_name_tests parties.now.names PARTY name.now)) }
    {
        known_at(parties, self.party, PARTY, name)
    }
}

// The number of a name that is to be known, and mostly stands at this place.
fn known_at(names: &Names, place: usize, column: usize, name: &[u8]) -> Result<usize, RecordFault>
    ensures passed { OnOk result (Pass (known_name_tests names.now.names column name.now)) }
    ensures number { IfOk result (λ number. number_in names.now.names name.now ≡ Some number) }
    ensures within { IfOk result (λ number. number < length names.now.names) }
    ensures failed { IfErr result (FailBy (known_name_tests names.now.names column name.now)) }
{
    if place < names.len() && names.name(place) == name {
        return Ok(place);
    }
    known_name(column, name, names.find(name))
}
