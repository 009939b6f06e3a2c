// Parts lists in files.
ghost use Rattle.std.specs.Prelude.{◌≡◌, IfOk, vec_items};
ghost use Rattle.std.specs.Option.{option_map};
ghost use Rattle.texts.specs.PartsList.{list_levels};

use std::alloc::{AllocError, Global};
use texts::{level, trim_return};

// The levels of the lines of a parts list that are not empty, or None where one of them begins with none.
pub fn levels_of_text(heap: Global, text: &[u8]) -> Result<Option<Vec<u16>>, AllocError>
    ensures { IfOk result (λ o. option_map vec_items o ≡ list_levels text.now) }
{
    let mut all = Vec::new(heap);
    for line in text.split(|b| *b == b'\n') {
        let line = trim_return(line);
        if line.is_empty() {
            continue;
        }
        let Some(n) = level(line) else {
            return Ok(None);
        };
        all.push(n)?;
    }
    Ok(Some(all))
}
