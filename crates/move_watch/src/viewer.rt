// What is shown the moves of a program.
ghost use Rattle.std.specs.Prelude.{◌≡◌, List};
ghost use Rattle.move_watch.specs.Patrol.{watches};
ghost use Rattle.move_watch.specs.Watch.{Watch};
ghost use Rattle.move_watch.specs.Watched.{shown_all};

use crate::{Patrol, Watcher};
use board_base::Move;

/// What is shown the moves of a program, one after another. A run is written over this trait, so that it doesn't
/// know who looks on; a patrol is one.
pub trait Viewer {
    // What each of its watchers has seen.
    ghost views: { Self → List Watch };

    /// Is shown the next move.
    fn view(&mut self, m: &Move)
        ensures { views self.new ≡ shown_all m.now (views self.old) };
}

// A patrol shows each move to its watchers.
impl Viewer for Patrol {
    ghost views = { λ p. watches (λ b. (Watcher-box b).watch b.value) p };

    fn view(&mut self, m: &Move) {
        self.show(m);
    }
}
