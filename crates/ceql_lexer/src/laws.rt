//! What holds of the tokens of every text.

ghost use Rattle.ceql_lexer.specs.Tokens.{TextPart, after_mark, parts_of};
ghost use Rattle.ceql_lexer.specs.Whole.{AreWhole};
ghost use Rattle.std.specs.Prelude.{◌≡◌, ℕ, List};

/// The parts of a text are all of it, each at its place and as long as it may be: no byte is lost
/// or made, and no name, number or comment is followed by a byte that would go on with it.
pub fn parts_are_the_text()
    ensures { (text : List ℕ) (parts : List TextPart) → parts_of text ≡ Ok parts
        → AreWhole (after_mark text) parts }
{}
