// The exported reader of a LineString, and the exported functions of many chains in one file: the reader and the writer of a MultiLineString, and the
// lines of its members. Of a MultiLineString, bit patterns go in and out as 64-bit words, so that a NaN keeps all its bits. They answer as all exported
// functions do: by document 01's number, with their values at the start of the lent `out`; where `out` has fewer words than a success writes, or none,
// by 100 before all else, and nothing changes.
#![tactic(auto)]

mod answers;
pub mod chaining;
pub mod reading;
