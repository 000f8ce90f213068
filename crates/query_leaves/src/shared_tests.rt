//! Tests that several leaves may have in common.

ghost use Rattle.std.specs.Prelude.{◌≡◌, IfOk};

use crate::Test;
use cer_base::Memory;
use std::alloc::Global;
use std::marker::Model;
use std::sync::Arc;

/// Tests, seen as the list of them. A share of them takes no memory for the tests.
#[derive(Drop)]
pub struct Tests {
    list: Arc<Vec<Test>>,
}

impl Model for Tests {
    ghost use Rattle.std.specs.Prelude.{List};
    ghost use Rattle.query_leaves.specs.declared.Test.{Test};
    ghost use Rattle.query_leaves.specs.contracts.Test as test;
    ghost use Rattle.std.specs.Coded.{codes};

    ghost Value = { List Test };

    ghost coded = { Prim.hlevel (codes, test.the_row.coded) };

    ghost view = { λ t. t.list.value.items };
}

impl Tests {
    /// These tests.
    pub fn of(alloc: Global, list: Vec<Test>) -> Result<Tests, Memory>
        ensures { IfOk result (λ tests. tests ≡ list.items) }
    {
        match Arc::new(alloc, list) {
            Ok(list) => Ok(Tests { list }),
            Err(_) => Err(Memory),
        }
    }

    /// The same ones.
    pub fn share(&self) -> Result<Tests, Memory>
        ensures { IfOk result (λ tests. tests ≡ self.now) }
    {
        Ok(Tests {
            list: self.list.clone()?,
        })
    }

    /// The tests, in order.
    pub fn as_slice(&self) -> &[Test]
        ensures value { result.now ≡ self.now }
    {
        self.list.as_slice()
    }

    /// Whether these are the very same ones as the others, of which one is then a share. Where they are
    /// not, they may be alike all the same.
    pub fn is_shared_with(&self, other: &Tests) -> bool {
        // a share more of these is one more of the others where they are the same ones
        let before = Arc::strong_count(&other.list);
        match Arc::try_clone(&self.list) {
            Ok(_share) => Arc::strong_count(&other.list) != before,
            Err(_) => false,
        }
    }
}
