//! An occurrence that is, under the changes above it, no other than that of its type.

ghost use Rattle.std.specs.Prelude.{◌≡◌, true};
ghost use Rattle.query_leaves.specs.Numbering.{IsLike};

use crate::context::Context;
use crate::occurrence::Occurrence;

/// Whether it has a name of its own at most, which no change above reads.
pub fn is_like_its_type(occurrence: &Occurrence, above: &Context) -> bool
    ensures { result ≡ true → IsLike above.now occurrence.now }
{
    if occurrence.is_plain() {
        return true;
    }
    match occurrence.own_name() {
        Some(own) => above.passes_by(own),
        None => false,
    }
}
