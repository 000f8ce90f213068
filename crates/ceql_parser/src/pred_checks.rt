//! The faults of a predicate, in the order of its tokens.

ghost use Rattle.std.specs.Prelude.{◌≡◌, ℕ, List, not, ◌&&◌};
ghost use Rattle.ceql_grammar.specs.declared.faults.QueryFault.TheVariants.{UnknownAttribute, NeverKind, NoOrder};
ghost use Rattle.ceql_parser.specs.FirstFaults.{first_in, unless, unless_named, FindsFault};
ghost use Rattle.ceql_parser.specs.TypesAsked.{is_flag, is_order, some_has_attr, any_kind};
ghost use Rattle.stream_schema.specs.Comparing.{are_alike, kind_of};
ghost use Rattle.ceql_parser.specs.FormulaFaults.{comparison_fault, pred_fault};

use crate::query_types::QueryTypes;
use crate::refusals::{Checked, NameFault, unless, unless_named};
use crate::schema_lookups::KindTest;
use cel_terms::{Name, Op, Pred};
use ceql_grammar::QueryFault;
use std::alloc::Global;
use stream_schema::{Value, kind_of};

fn is_flag(literal: &Value) -> bool
    ensures { result ≡ is_flag literal.now }
{
    match literal {
        Value::Flag(_) => true,
        _ => false,
    }
}

fn is_order(op: Op) -> bool
    ensures { result ≡ is_order op }
{
    match op {
        Op::Eq => false,
        Op::Ne => false,
        _ => true,
    }
}

/// Answers the fault of an attribute that none of the types has.
pub fn check_known(alloc: Global, types: &QueryTypes, name: &Name) -> Checked
    ensures { FindsFault result (unless_named
        (some_has_attr types.now name.now.text any_kind) UnknownAttribute name.now) }
{
    let known = types.some_has_attr(name.text.as_str(), KindTest::Any);
    unless_named(alloc, known, NameFault::UnknownAttribute, name)
}

/// Answers the fault of an attribute that compares with the literal in none of the types.
fn check_alike(alloc: Global, types: &QueryTypes, name: &Name, literal: &Value) -> Checked
    ensures { FindsFault result (unless_named
        (some_has_attr types.now name.now.text (are_alike (kind_of literal.now)))
        (λ text. NeverKind text (kind_of literal.now)) name.now) }
{
    let kind = kind_of(literal);
    let alike = types.some_has_attr(name.text.as_str(), KindTest::Like(kind));
    unless_named(alloc, alike, NameFault::NeverKind(kind), name)
}

/// Answers the fault of an order between truth values.
fn check_order(name: &Name, op: Op, literal: &Value) -> Checked
    ensures { FindsFault result (unless
        (not (is_order op && is_flag literal.now)) NoOrder name.now.place) }
{
    let ordered = !(is_order(op) && is_flag(literal));
    unless(ordered, QueryFault::NoOrder, name.place)
}

fn comparison(alloc: Global, types: &QueryTypes, name: &Name, op: Op, literal: &Value) -> Checked
    ensures { FindsFault result (comparison_fault types.now name.now op literal.now) }
{
    match check_known(alloc, types, name) {
        Ok(()) => {}
        Err(stop) => return Err(stop),
    }
    match check_alike(alloc, types, name, literal) {
        Ok(()) => {}
        Err(stop) => return Err(stop),
    }
    check_order(name, op, literal)
}

#[cycle(preds)]
fn check_preds(alloc: Global, types: &QueryTypes, preds: &[Pred]) -> Checked
    ensures { FindsFault result (first_in (pred_fault types.now) preds.now) }
{
    for pred in preds {
        match check_pred(alloc, types, pred) {
            Ok(()) => {}
            Err(stop) => return Err(stop),
        }
    }
    Ok(())
}

/// Answers the first fault of the predicate.
#[cycle(preds)]
pub fn check_pred(alloc: Global, types: &QueryTypes, pred: &Pred) -> Checked
    ensures { FindsFault result (pred_fault types.now pred.now) }
{
    match pred {
        Pred::Cmp(name, op, literal) => comparison(alloc, types, name, *op, literal),
        Pred::Not(inner) => check_pred(alloc, types, inner),
        Pred::All(preds) => check_preds(alloc, types, preds),
        Pred::Any(preds) => check_preds(alloc, types, preds),
    }
}
