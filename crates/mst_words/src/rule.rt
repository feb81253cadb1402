//! The rule of the table.
use crate::view::{Shape, View};
use atomic_table::TableRule;
use mst_arena::Desk;
use std::alloc::Allocator;
use std::marker::PhantomData;

/// It holds between any two steps, whichever seats make them.
pub struct Rule<A: Allocator> {
    desk: PhantomData<A>,
}

impl<A: Allocator> TableRule<Option<Desk<A>>, View, Shape> for Rule<A> {
    ghost use Rattle.mst_words.specs.Rule.{Ruled};
    ghost use Rattle.mst_words.specs.Stored.{stored};
    ghost use Rattle.mst_words.specs.World.{dealer};

    ghost holds = { λ shape s. Ruled (stored shape.format) shape.rows shape.passes s };

    ghost first = { λ shape. dealer shape.rows shape.passes shape.format 1 };
}
