//! Laws of the grammar. Each function does nothing; its contract is the law.

ghost use Rattle.ceql_lexer.specs.declared.Token.{Token};
ghost use Rattle.ceql_grammar.specs.LawfulTexts.{IsLawfulStatement};
ghost use Rattle.ceql_grammar.specs.Statements.{AreStatements, StatementTree};
ghost use Rattle.std.specs.Prelude.{◌≡◌, All, List};

/// The grammar is unambiguous: a list of tokens stands for at most one list of statements.
pub fn a_text_has_one_reading()
    ensures { (tokens : List Token) (a b : List StatementTree) → AreStatements tokens a
        → AreStatements tokens b → a ≡ b }
{}

/// The grammar alone sees to it that no list of a statement is empty that has to have members, that
/// decimal numbers have at most nine places, and that windows are in range.
pub fn a_text_is_lawful()
    ensures { (tokens : List Token) (statements : List StatementTree)
        → AreStatements tokens statements → All IsLawfulStatement statements }
{}
