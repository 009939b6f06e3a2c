// What holds of the format: each function carries a theorem as its contract.
ghost use Rattle.formats.specs.Theorems.{RoundTrip, Marked};

// What can be written is read back, and what is read is what would be written.
pub fn round_trip_stands()
    ensures { RoundTrip }
{}

// The bytes 07 00 03 02 00 03 00 05 00 00 00 02 00 78 are tree 7, fields 01, 1, 11, depths 0 and 2.
pub fn example_stands()
    ensures { Marked }
{}
