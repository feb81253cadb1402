//! Whether a pass has seen as many events as a version number tells. The number goes with a
//! message: up to it the history is the same to all passes (`note_laws` of `mst_theorem`).
ghost use Rattle.std.specs.Prelude.{◌≡◌, ◌≤◌, ◌+◌, ◌↔◌, true, length};
ghost use Rattle.mst_store.specs.Passes.{Looks};

use crate::pass::Pass;
use std::alloc::Allocator;

impl<'a, A: Allocator + Copy> Pass<'a, A> {
    /// Looks, and says whether the pass has then seen as many events as the number tells, which may
    /// be what another pass had of [`Pass::made`] or [`Pass::version`], and sent with a message.
    ///
    /// If so, this pass has seen all that the other had seen or written then, and no later call of
    /// it answers as of before that. So the number alone makes reads and writes of several threads
    /// causally consistent: read your writes, monotonic reads, writes follow reads.
    pub fn has_seen(&mut self, version: u64) -> bool
        ensures looks { Looks self.old self.new }
        ensures exact { result ≡ true ↔ version ≤ length self.new.seen }
        ensures once { self.new.asked ≡ self.old.asked + 1 }
    {
        self.version() >= version
    }
}
