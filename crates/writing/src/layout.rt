// Where things stand in a sheet: the tree number, the number of nodes, an offset for each node and one more, and then the tags.
ghost use Rattle.std.specs.Prelude.{◌≡◌, ◌≤◌};
ghost use Rattle.labels.specs.Sheet.{header_bytes};

// Where the number of nodes stands, and the first offset.
pub const NODES_AT: usize = 2;

pub const OFFSETS_AT: usize = 4;

// The bytes of an offset.
pub const OFFSET_BYTES: usize = 4;

// The bytes before the first tag, where there are n nodes.
pub fn header(n: u16) -> usize
    ensures { result ≡ header_bytes n }
{
    OFFSETS_AT + OFFSET_BYTES * (n as usize + 1)
}
