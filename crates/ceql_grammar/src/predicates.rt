//! Predicates: comparisons joined by AND and OR.

ghost use Rattle.ceql_grammar.specs.MemberLists.{all_preds_of, any_pred_of};
ghost use Rattle.ceql_grammar.specs.ReadResults.{Reads, ReadsBehind};
ghost use Rattle.ceql_grammar.specs.RuleReaders.{comparison, pred, pred_parts};
ghost use Rattle.ceql_grammar.specs.Trees.{PredTree, pred_tree};
ghost use Rattle.std.specs.Prelude.{◌≡◌, ◌<◌, length, map};

use crate::conditions::{Condition, disjunction};
use crate::tokens::{Read, Rest, name};
use crate::values::{literal, op};
use cel_terms::Pred;
use ceql_lexer::Token;
use cer_base::Memory;
use std::alloc::Global;

/// A comparison.
#[tactic(auto, unfolding(crate::specs::RuleReaders::comparison))]
fn comparison<'a>(alloc: Global, tokens: &'a [Token]) -> Read<'a, Pred>
    ensures { Reads pred_tree tokens.now result (comparison tokens.now) }
{
    let (name, rest) = name(alloc, tokens)?;
    let (op, rest) = op(rest)?;
    let (literal, rest) = literal(alloc, rest)?;
    Ok((Pred::Cmp(name, op, literal), rest))
}

impl Condition for Pred {
    ghost Tree = { PredTree };

    ghost tree = { pred_tree };

    ghost parts = { pred_parts };

    fn takes_not() -> bool {
        true
    }

    /// A comparison, put behind the predicates.
    #[inline(never)]
    fn add_leaf<'a>(alloc: Global, conditions: &mut Vec<Pred>, tokens: &'a [Token]) -> Rest<'a> {
        let (pred, rest) = comparison(alloc, tokens)?;
        conditions.push(pred)?;
        Ok(rest)
    }

    fn all_of(members: Vec<Pred>) -> Pred
        requires some { 0 < length members.items }
        ensures value { pred_tree result ≡ all_preds_of (map pred_tree members.items) }
    {
        if members.len() != 1 {
            return Pred::All(members);
        }
        let mut members = members;
        match members.pop() {
            Some(only) => only,
            None => Pred::All(members),
        }
    }

    fn any_of(members: Vec<Pred>) -> Pred
        requires some { 0 < length members.items }
        ensures value { pred_tree result ≡ any_pred_of (map pred_tree members.items) }
    {
        if members.len() != 1 {
            return Pred::Any(members);
        }
        let mut members = members;
        match members.pop() {
            Some(only) => only,
            None => Pred::Any(members),
        }
    }

    fn opposite(alloc: Global, condition: Pred) -> Result<Pred, Memory> {
        Ok(Pred::Not(Box::new(alloc, condition)?))
    }
}

/// Conjunctions joined by OR, as one predicate.
pub fn predicate<'a>(alloc: Global, tokens: &'a [Token]) -> Read<'a, Pred>
    ensures { Reads pred_tree tokens.now result (pred tokens.now) }
{
    let mut preds = Vec::new(alloc);
    let rest = disjunction(alloc, &mut preds, tokens)?;
    Ok((Pred::all_of(preds), rest))
}
