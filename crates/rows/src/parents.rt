// The row of parents, from a host.
ghost use Rattle.std.specs.Prelude.{◌≡◌, length, Ok};
ghost use Rattle.rows.specs.Rows.{Rooted, parents_in};

use trees::host::Host;

// The row of parents of a tree. It is read by index: a method for that would be longer, and ask for the same bound.
#[derive(Clone, Copy)]
pub struct Parents<'a> {
    pub row: &'a [u16],
    pub ghost rooted: { Rooted row.now },
}

// Asks the host once for the parent of each node, and stores it at the node's place; the root has none, and its place stays.
pub(crate) fn gather<'a, H: Host>(host: &H, row: &'a mut [u16]) -> Parents<'a>
    requires tree { H.verdicts host.now ≡ Ok (length row.old) }
    ensures many { length result.row.now ≡ length row.old }
    ensures held { parents_in result.row.now ≡ H.parents host.now }
{
    for (v, place) in row.iter_mut().enumerate() {
        if let Some(p) = host.parent(v as u16) {
            *place = p;
        }
    }
    Parents { row }
}
