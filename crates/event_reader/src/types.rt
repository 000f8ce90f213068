//! Types that were looked up before.

ghost use Rattle.std.specs.Prelude.{◌≡◌, ◌<◌, true, Some, length, IfSome};
ghost use Rattle.stream_schema.specs.Names.{type_number};

use stream_schema::{Schema, TypeId};

/// How many guesses are kept.
const GUESSES: usize = 64;

/// For a name the type that is tried first: the one that a name with the same first and last byte
/// had before. A guess is tested each time, so any schema may be asked.
#[derive(Drop)]
pub struct Guesses {
    types: [TypeId; GUESSES],
}

impl Guesses {
    /// The first type for each name.
    pub fn new() -> Guesses {
        Guesses {
            types: [0; GUESSES],
        }
    }

    /// The number of the schema's type of this name, or `None` where no type has it.
    #[inline(always)]
    #[tactic(auto, using(crate::proofs::OfSchema::number_within))]
    pub fn type_of(&mut self, schema: &Schema, name: &[u8]) -> Option<TypeId>
        ensures place { result ≡ type_number schema.now.types name.now }
        ensures bound { IfSome result (λ ty. ty < length schema.now.types) }
    {
        let place = place_of(name);
        let guess = self.types[place];
        if has_name(schema, guess, name) {
            return Some(guess);
        }
        let found = schema.type_of_bytes(name);
        if let Some(ty) = found {
            self.types[place] = ty;
        }
        found
    }
}

/// Where the guess for the name is kept.
#[inline]
fn place_of(name: &[u8]) -> usize
    ensures { result < GUESSES }
{
    match (name.first(), name.last()) {
        (Some(first), Some(last)) => (*first as usize + 2 * (*last as usize)) % GUESSES,
        _ => 0,
    }
}

/// Whether the schema has a type of the number, of this name.
#[inline]
fn has_name(schema: &Schema, ty: TypeId, name: &[u8]) -> bool
    ensures { result ≡ true → type_number schema.now.types name.now ≡ Some ty }
{
    schema.well_declared();
    match schema.type_name(ty) {
        Some(known) => known.as_bytes() == name,
        None => false,
    }
}
