//! The statements of a text, checked one after another.

ghost use Rattle.std.specs.Prelude.{◌≡◌, ℕ, ◌+◌, List, [], ◌∷◌, ◌++◌, length, map, All, IfOk, OnOk, option_and_then};
ghost use Rattle.cel_terms.specs.Checked.{IsChecked};
ghost use Rattle.ceql_parser.specs.FirstFaults.{FindsFault};
ghost use Rattle.ceql_grammar.specs.LawfulTexts.{IsLawfulStatement};
ghost use Rattle.ceql_parser.specs.StatementFaults.{statement_fault, count_of};
ghost use Rattle.ceql_parser.specs.ScriptFaults.{declaring, queries_of, query_said, script_fault, declared_schema};
ghost use Rattle.ceql_grammar.specs.Statements.{statement_tree};

use crate::declaring::{declare_event, declare_stream};
use crate::refusals::{Checked, unless};
use crate::select_checks::{check_select, count_of};
use cel_terms::Query;
use ceql_grammar::{NumberAt, QueryError, QueryFault, Script, Select, Statement};
use cer_base::{Listed, Location, Memory, OrMemory};
use std::alloc::Global;
use stream_schema::Schema;

/// Puts what the statement declares into the schema, or answers its first fault.
fn check_statement(
    alloc: Global,
    schema: &mut Schema,
    before: u64,
    statement: &Statement,
) -> Checked
    ensures told { FindsFault result (statement_fault schema.old before statement.now) }
    ensures declared { OnOk result (schema.new ≡ declaring schema.old statement.now) }
{
    match statement {
        Statement::Event(name, attrs) => declare_event(alloc, schema, name, attrs),
        Statement::Stream(name, types) => declare_stream(alloc, schema, name, types),
        Statement::Select(select) => check_select(alloc, schema, before, select),
    }
}

/// How many queries the statement is: one or none.
fn queries_in(statement: &Statement) -> u64
    ensures { result ≡ length (queries_of (statement.now ∷ [])) }
{
    match statement {
        Statement::Event(_, _) => 0,
        Statement::Stream(_, _) => 0,
        Statement::Select(_) => 1,
    }
}

/// What the statements declare, each checked with what those before it declare, and `end` being the place
/// just after the text.
///
/// Errors: the first fault of the first statement that has one; `NoQuery` at the end where there is no
/// query. Besides only `Memory`, where an allocation is refused.
pub fn check_statements(
    alloc: Global,
    statements: &[Statement],
    end: Location,
) -> Result<Schema, OrMemory<QueryError>>
    ensures told { FindsFault result (script_fault statements.now end) }
    ensures schema { IfOk result (λ schema. schema ≡ declared_schema statements.now) }
{
    let mut schema = Schema::new(alloc);
    let mut count = 0;
    for statement in statements {
        match check_statement(alloc, &mut schema, count, statement) {
            Ok(()) => {}
            Err(stop) => return Err(stop),
        }
        count += queries_in(statement);
    }
    match unless(0 < count, QueryFault::NoQuery, end) {
        Ok(()) => Ok(schema),
        Err(stop) => Err(stop),
    }
}

fn any_of(any: Option<NumberAt>) -> Option<u64>
    ensures { result ≡ option_and_then (λ number. count_of number.value) any }
{
    match any {
        Some(number) => count_of(number.value),
        None => None,
    }
}

/// The query of the SELECT, with the number after its ANY.
fn query_said(select: Select) -> Query
    ensures { result ≡ query_said select }
{
    Query {
        any: any_of(select.any),
        ..select.query
    }
}

/// Puts the query of a SELECT after the others.
fn add_query(queries: &mut Vec<Query>, statement: Statement) -> Result<(), Memory>
    ensures { OnOk result (queries.new.items ≡ queries.old.items ++ queries_of (statement ∷ [])) }
{
    match statement {
        Statement::Event(_, _) => Ok(()),
        Statement::Stream(_, _) => Ok(()),
        Statement::Select(select) => Ok(queries.push(query_said(select))?),
    }
}

/// The queries of the statements, in order.
#[tactic(auto, using(crate::proofs::StatementsInTurn::queries_append))]
pub fn queries_of(alloc: Global, statements: Vec<Statement>) -> Result<Vec<Query>, Memory>
    ensures { IfOk result (λ queries. queries.items ≡ queries_of statements.items) }
{
    let mut queries = Vec::new(alloc);
    for statement in statements {
        add_query(&mut queries, statement)?;
    }
    Ok(queries)
}

/// What a text declares, and its queries in order.
#[derive(Drop, Debug)]
pub struct Accepted {
    pub schema: Schema,
    pub queries: Listed<Query>,
}

/// What the script declares and its queries, where no statement has a fault. Each query is checked for
/// the schema.
///
/// Errors: the first fault of the first statement that has one; `NoQuery` at the end where there is no
/// query. Besides only `Memory`, where an allocation is refused.
pub fn check(alloc: Global, script: Script) -> Result<Accepted, OrMemory<QueryError>>
    requires lawful { All IsLawfulStatement (map statement_tree script.statements) }
    ensures told { FindsFault result (script_fault script.statements script.end) }
    ensures schema { IfOk result (λ a. a.schema ≡ declared_schema script.statements) }
    ensures queries { IfOk result (λ a. a.queries ≡ queries_of script.statements) }
    ensures checked { IfOk result (λ a. All (IsChecked a.schema) a.queries) }
{
    match check_statements(alloc, script.statements.as_slice(), script.end) {
        Ok(schema) => match queries_of(alloc, script.statements.into_vec()) {
            Ok(queries) => Ok(Accepted {
                schema,
                queries: Listed::of(queries),
            }),
            Err(Memory) => Err(OrMemory::Memory),
        },
        Err(stop) => Err(stop),
    }
}
