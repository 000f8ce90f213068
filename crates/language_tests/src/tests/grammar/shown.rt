//! Statements and faults as texts.

use crate::tests::same;
use cel_terms::{Filter, Formula, Link, Name, Op, Postfix, Pred, Query, Window};
use ceql_grammar::{AttrDecl, KindDecl, NumberAt, QueryError, Script, Select, Statement, parse};
use ceql_lexer::{Tokens, lex};
use cer_base::OrMemory;
use std::alloc::{AllocError, Global};
use std::process::Abort;
use std::test::*;
use stream_schema::Value;

fn op_sign(op: Op) -> &'static str {
    match op {
        Op::Eq => "=",
        Op::Ne => "!=",
        Op::Lt => "<",
        Op::Le => "<=",
        Op::Gt => ">",
        Op::Ge => ">=",
    }
}

fn push_value(out: &mut String, value: &Value) -> Result<(), AllocError> {
    match value {
        Value::Int(n) => write!(out, "{n}"),
        Value::Text(text) => write!(out, "'{}'", text.as_str()),
        Value::Flag(flag) => write!(out, "{flag}"),
        Value::Dec { scaled, places } => write!(out, "{scaled}/{places}"),
    }
}

fn push_names(out: &mut String, names: &[Name]) -> Result<(), AllocError> {
    let mut comma = "";
    for name in names {
        write!(out, "{comma}{}", name.text.as_str())?;
        comma = ",";
    }
    Ok(())
}

#[cycle(pred)]
fn push_preds(out: &mut String, preds: &[Pred], sign: &str) -> Result<(), AllocError> {
    let mut before = "(";
    for pred in preds {
        out.push_str(before)?;
        push_pred(out, pred)?;
        before = sign;
    }
    out.push_str(")")
}

#[cycle(pred)]
fn push_pred(out: &mut String, pred: &Pred) -> Result<(), AllocError> {
    match pred {
        Pred::Cmp(name, op, value) => {
            write!(out, "{}{}", name.text.as_str(), op_sign(*op))?;
            push_value(out, value)
        }
        Pred::Not(inner) => {
            out.push_str("!")?;
            push_pred(out, inner)
        }
        Pred::All(preds) => push_preds(out, preds.as_slice(), "&"),
        Pred::Any(preds) => push_preds(out, preds.as_slice(), "|"),
    }
}

#[cycle(filter)]
fn push_filters(out: &mut String, filters: &[Filter], sign: &str) -> Result<(), AllocError> {
    let mut before = "(";
    for filter in filters {
        out.push_str(before)?;
        push_filter(out, filter)?;
        before = sign;
    }
    out.push_str(")")
}

#[cycle(filter)]
fn push_filter(out: &mut String, filter: &Filter) -> Result<(), AllocError> {
    match filter {
        Filter::On(name, pred) => {
            write!(out, "{}[", name.text.as_str())?;
            push_pred(out, pred)?;
            out.push_str("]")
        }
        Filter::All(filters) => push_filters(out, filters.as_slice(), "&"),
        Filter::Any(filters) => push_filters(out, filters.as_slice(), "|"),
    }
}

fn push_postfix(out: &mut String, postfix: &Postfix) -> Result<(), AllocError> {
    match postfix {
        Postfix::Plus => out.push_str("+"),
        Postfix::NextPlus => out.push_str(":+"),
        Postfix::Named(name) => write!(out, " as {}", name.text.as_str()),
        Postfix::Keep(names) => {
            out.push_str(" keep[")?;
            push_names(out, names.as_slice())?;
            out.push_str("]")
        }
    }
}

/// The base of postfixes: one that has postfixes itself stands in parentheses.
#[cycle(formula)]
fn push_base(out: &mut String, base: &Formula) -> Result<(), AllocError> {
    match base {
        Formula::Post(_, _) => {
            out.push_str("(")?;
            push_formula(out, base)?;
            out.push_str(")")
        }
        _ => push_formula(out, base),
    }
}

#[cycle(formula)]
fn push_formulas(out: &mut String, formulas: &[Formula], sign: &str) -> Result<(), AllocError> {
    let mut before = "(";
    for formula in formulas {
        out.push_str(before)?;
        push_formula(out, formula)?;
        before = sign;
    }
    out.push_str(")")
}

#[cycle(formula)]
fn push_links(out: &mut String, links: &[Link]) -> Result<(), AllocError> {
    for link in links {
        out.push_str(if link.tight { ":" } else { ";" })?;
        push_formula(out, &link.next)?;
    }
    Ok(())
}

#[cycle(formula)]
fn push_formula(out: &mut String, formula: &Formula) -> Result<(), AllocError> {
    match formula {
        Formula::Of(name) => out.push_str(name.text.as_str()),
        Formula::Chain(parts) => push_formulas(out, parts.as_slice(), ";"),
        Formula::Linked(first, links) => {
            out.push_str("(")?;
            push_formula(out, first)?;
            push_links(out, links.as_slice())?;
            out.push_str(")")
        }
        Formula::Either(choices) => push_formulas(out, choices.as_slice(), "|"),
        Formula::Post(base, postfixes) => {
            push_base(out, base)?;
            for postfix in postfixes {
                push_postfix(out, postfix)?;
            }
            Ok(())
        }
        Formula::Under(base, filters) => {
            out.push_str("(")?;
            push_formula(out, base)?;
            out.push_str(" under")?;
            for filter in filters {
                out.push_str(" ")?;
                push_filter(out, filter)?;
            }
            out.push_str(")")
        }
    }
}

fn push_number(out: &mut String, number: NumberAt) -> Result<(), AllocError> {
    let place = number.place;
    write!(out, "{}@{}:{}", number.value, place.line, place.col)
}

fn push_kind(out: &mut String, kind: KindDecl) -> Result<(), AllocError> {
    match kind {
        KindDecl::Int => out.push_str("int"),
        KindDecl::Text => out.push_str("text"),
        KindDecl::Flag => out.push_str("flag"),
        KindDecl::Dec(number) => {
            out.push_str("dec ")?;
            push_number(out, number)
        }
    }
}

fn push_window(out: &mut String, window: &Window) -> Result<(), AllocError> {
    match window {
        Window::Free => Ok(()),
        Window::Events(n) => write!(out, " within {n} events"),
        Window::Clock(name, n) => write!(out, " within {n} of {}", name.text.as_str()),
    }
}

/// What stands between `select` and the names.
fn push_modes(out: &mut String, select: &Select) -> Result<(), AllocError> {
    if select.query.strict {
        out.push_str("strict ")?;
    }
    if let Some(number) = select.any {
        out.push_str("any ")?;
        push_number(out, number)?;
        out.push_str(" ")?;
    }
    Ok(())
}

fn push_selected(out: &mut String, query: &Query) -> Result<(), AllocError> {
    match &query.select {
        None => out.push_str("*")?,
        Some(names) => push_names(out, names.as_slice())?,
    }
    out.push_str(" from ")?;
    push_names(out, query.streams.as_slice())
}

fn push_partition(out: &mut String, names: &[Name]) -> Result<(), AllocError> {
    if names.is_empty() {
        return Ok(());
    }
    out.push_str(" by ")?;
    push_names(out, names)
}

/// What stands behind `where`.
fn push_query(out: &mut String, query: &Query) -> Result<(), AllocError> {
    out.push_str(" where ")?;
    push_formula(out, &query.formula)?;
    push_partition(out, query.partition.as_slice())?;
    push_window(out, &query.window)
}

fn push_select(out: &mut String, select: &Select) -> Result<(), AllocError> {
    let place = select.query.place;
    write!(out, "{}:{} select ", place.line, place.col)?;
    push_modes(out, select)?;
    push_selected(out, &select.query)?;
    push_query(out, &select.query)
}

fn push_attributes(out: &mut String, attrs: &[AttrDecl]) -> Result<(), AllocError> {
    let mut comma = "";
    for attr in attrs {
        write!(out, "{comma}{} ", attr.name.text.as_str())?;
        push_kind(out, attr.kind)?;
        comma = ",";
    }
    Ok(())
}

fn push_statement(out: &mut String, statement: &Statement) -> Result<(), AllocError> {
    match statement {
        Statement::Event(name, attrs) => {
            write!(out, "event {}(", name.text.as_str())?;
            push_attributes(out, attrs.as_slice())?;
            out.push_str(")")
        }
        Statement::Stream(name, types) => {
            write!(out, "stream {}(", name.text.as_str())?;
            push_names(out, types.as_slice())?;
            out.push_str(")")
        }
        Statement::Select(select) => push_select(out, select),
    }
}

/// The statements, each on a line of its own, and their end.
fn script_text(alloc: Global, script: &Script) -> Result<String, AllocError> {
    let mut out = String::new(alloc);
    for statement in script.statements.as_slice() {
        push_statement(&mut out, statement)?;
        out.push_str("\n")?;
    }
    write!(out, "end {}:{}", script.end.line, script.end.col)?;
    Ok(out)
}

/// The place of the fault, and its words.
fn fault_text(alloc: Global, error: &QueryError) -> Result<String, AllocError> {
    format!(in alloc; "{}:{} {}", error.place.line, error.place.col, error.fault)
}

fn parsed(alloc: Global, tokens: &Tokens) -> Result<String, AllocError> {
    if tokens.as_slice().is_empty() {
        return "no tokens".to_string(alloc);
    }
    match parse(alloc, tokens) {
        Ok(script) => script_text(alloc, &script),
        Err(OrMemory::Fault(error)) => fault_text(alloc, &error),
        Err(OrMemory::Memory) => Err(AllocError),
    }
}

/// The statements of the text, each on a line of its own, and its end; or its fault and the place.
pub fn answer(alloc: Global, text: &[u8]) -> Result<String, AllocError> {
    match lex(alloc, text) {
        Ok(tokens) => parsed(alloc, &tokens),
        Err(_) => "no tokens".to_string(alloc),
    }
}

/// Holds what each text gives against what is wanted; a row is what it shows, the text and the answer.
pub fn rows_hold(rt: &impl Abort, alloc: Global, rows: &[(&str, &str, &str)]) -> Result<(), Fail> {
    for (name, text, wanted) in rows {
        let shown = answer(alloc, text.as_bytes())?;
        same(rt, shown.as_str(), wanted, name);
    }
    Ok(())
}
