//! What holds of statements and their faults. Each function does nothing; its contract is the law.

ghost use Rattle.cer_base.specs.declared.Location.{Location};
ghost use Rattle.ceql_parser.specs.CheckedTerms.{LawfulFormulasAreChecked, LawfulQueriesAreChecked};
ghost use Rattle.ceql_parser.specs.QueryTrees.{query_tree};
ghost use Rattle.ceql_parser.specs.ScriptFaults.{queries_of, script_fault, declared_schema};
ghost use Rattle.ceql_grammar.specs.Statements.{statement_tree};
ghost use Rattle.ceql_grammar.specs.declared.terms.Statement.{Statement};
ghost use Rattle.std.specs.Prelude.{◌≡◌, List, map};

/// A lawful formula in which no fault is found is checked for the types of its query.
pub fn lawful_formulas_are_checked()
    ensures { LawfulFormulasAreChecked }
{}

/// The queries of lawful statements in which no fault is found are checked for what all the statements
/// declare, those after them too.
pub fn lawful_queries_are_checked()
    ensures { LawfulQueriesAreChecked }
{}

/// What is told of statements depends on what they say alone, not on where they lie in memory: their
/// first fault, what they declare, and what their queries say.
pub fn trees_tell_all()
    ensures fault { (ss ts : List Statement) (end : Location)
        → map statement_tree ss ≡ map statement_tree ts
        → script_fault ss end ≡ script_fault ts end }
    ensures schema { (ss ts : List Statement) → map statement_tree ss ≡ map statement_tree ts
        → declared_schema ss ≡ declared_schema ts }
    ensures queries { (ss ts : List Statement) → map statement_tree ss ≡ map statement_tree ts
        → map query_tree (queries_of ss) ≡ map query_tree (queries_of ts) }
{}
