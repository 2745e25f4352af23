//! The law of record numbers: the contract of the function is the law.

ghost use Rattle.rl_tables.specs.Laws.{RecordsHaveTheirPlaces, PlacesHaveTheirRecords, RecordsAreThere};

/// The number of a key's record and the place of a record undo each other.
pub fn records_and_places()
    ensures record_of_key { RecordsHaveTheirPlaces }
    ensures place_of_number { PlacesHaveTheirRecords }
    ensures there { RecordsAreThere }
{}
