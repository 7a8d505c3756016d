//! What stands after some moments of a run.
ghost use Rattle.std.specs.Prelude.{◌≡◌, []};
ghost use Rattle.am32wave.specs.Moments.{MomentFits};
ghost use Rattle.am32wave.specs.Scene.{scene, with_moment};

use crate::levels::Levels;
use crate::moment::Moment;
use crate::picture::Picture;

/// What the notes say, and the levels outside the controller.
#[derive(Clone, Copy, Drop)]
pub struct Scene {
    pub picture: Picture,
    pub levels: Levels,
}

impl Scene {
    /// Before the first moment.
    pub fn new() -> Scene
        ensures { result ≡ scene [] }
    {
        Scene {
            picture: Picture::new(),
            levels: Levels::new(),
        }
    }

    /// With a moment more.
    pub fn after(&self, moment: &Moment) -> Scene
        requires { MomentFits moment.now }
        ensures { result ≡ with_moment self.now moment.now }
    {
        match moment {
            Moment::Note(note) => Scene {
                picture: self.picture.after(note),
                levels: self.levels,
            },
            Moment::Event(event) => Scene {
                picture: self.picture,
                levels: self.levels.after(event),
            },
        }
    }
}
