// What holds of labels: each function carries a theorem as its contract. All but the table hold in every tree; those with words hold
// under every word function that keeps the law of codes.
ghost use Rattle.labels.specs.Bounds.{LightHalves, FieldsBounded, TagsReadable, BodiesShort};
ghost use Rattle.labels.specs.Covers.{Everywhere, Numbered, Covers, Relates, TagCovers, TagRelates, Distinct};
ghost use Rattle.labels.specs.Groups.{GroupsCover};
ghost use Rattle.labels.specs.Lists.{ListsAccepted};
ghost use Rattle.labels.specs.Looking.{SheetHolds};
ghost use Rattle.labels.specs.Meanings.{DefinitionsMean};
ghost use Rattle.labels.specs.Small.{Table};
ghost use Rattle.labels.specs.Unit.{WorkedOut};

// The small tree of levels 0, 1, 2, 2, 1, 2, worked out to the bytes of its sheet.
pub fn table_stands()
    ensures { Table }
{}

// The unit of levels 0, 1, 2, 2, 1, 2, from its parents to the bytes of its sheet and what its tags say of each other; and the words of some weights.
pub fn unit_stands()
    ensures { WorkedOut }
{}

// Size, heavy child, path, top and label, by equations that count no steps.
pub fn definitions_stand()
    ensures { DefinitionsMean }
{}

// The lists handed to a code are lists that every code takes, with their sums.
pub fn lists_stand()
    ensures { ListsAccepted }
{}

// A light child has at most half of what its parent's size leaves.
pub fn halves_stand()
    ensures { LightHalves }
{}

// A label has at most 2 * t - 1 fields, so at most 29.
pub fn fields_stand()
    ensures { FieldsBounded }
{}

// A label has at most 928 bits, and its tag is readable and reads as it.
pub fn tags_stand()
    ensures { TagsReadable }
{}

// The cover of two labels is the label of the deepest node at or above both; the same for tags, and no query refuses.
pub fn cover_stands()
    ensures labels { Everywhere Covers }
    ensures tags { Numbered TagCovers }
{}

// The relation of two labels is that of their nodes; the same for tags, and no query refuses.
pub fn relation_stands()
    ensures labels { Everywhere Relates }
    ensures tags { Numbered TagRelates }
{}

// Different nodes have different labels and tags, and a tag cut at all its fields is itself.
pub fn distinct_stands()
    ensures { Numbered Distinct }
{}

// Under every balanced code, and so under that of Gilbert and Moore, a body has at most 5 * b + 2 bits.
pub fn bodies_stand()
    ensures { BodiesShort }
{}

// Some nodes have one deepest node at or above all of them, and their tags, covered in any grouping, come to its tag.
pub fn groups_stand()
    ensures { Numbered GroupsCover }
{}

// What stands where on a sheet: its numbers, its offsets, and each node's tag between two of them.
pub fn sheets_stand()
    ensures { Numbered SheetHolds }
{}
