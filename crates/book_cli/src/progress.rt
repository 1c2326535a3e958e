//! How far the events of a book were handled.

use worlds::World;

/// How far a run is: the world that the events have made, how many were handled, and how many of them count in the last line.
pub(crate) struct Progress {
    pub world: World,
    pub handled: u64,
    pub counted: u64,
}

impl Drop for Progress {
    fn drop(self) {
        let Progress {
            world: _,
            handled: _,
            counted: _,
        } = self;
    }
}
