//! What is shown of a connection's state. Definition: h2_spec's `specs/Texts/View.antt`.

ghost use Rattle.std.specs.Prelude.{◌≡◌};
ghost use Rattle.h2_spec.specs.Texts.View.{shown_block, view};

use crate::field_block::open_block::OpenBlock;
use crate::state::State;
use h2_conn_view::view::Shown;
pub use h2_conn_view::view::View;
use h2_spec::connection::BlockView;
use std::alloc::Allocator;

/// What is shown of an open block.
pub(crate) fn shown_block<A: Allocator>(block: &Option<OpenBlock<A>>) -> Option<BlockView>
    ensures { result ≡ shown_block block.now }
{
    match block {
        Some(block) => Some(block.shown()),
        None => None,
    }
}

impl<'b, A: Allocator> State<'b, A> {
    /// What is shown of the state, lent.
    #[tactic(auto, unfolding(h2_spec::specs::Texts::View::view))]
    pub fn shown(&self) -> Shown<'_, A>
        ensures { result ≡ view self.now }
    {
        Shown {
            core: self.core,
            block: shown_block(&self.block),
            table: &self.table,
            streams: &self.streams,
        }
    }
}
