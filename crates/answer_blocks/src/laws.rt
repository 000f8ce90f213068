//! Laws for callers. Each function does nothing; its contract is the law.

ghost use Rattle.answer_blocks.specs.BlockLaws.{SomeBlockIs, SomeBlocksAre};

/// Every query has lines that may be written at every position, and so have several queries.
pub fn some_block_is()
    ensures query { SomeBlockIs }
    ensures position { SomeBlocksAre }
{}
