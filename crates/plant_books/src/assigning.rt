// A book in which nothing has come yet is given to a plant.
ghost use Rattle.std.specs.Prelude.{◌≡◌, if◌then◌else◌};
ghost use Rattle.history.specs.Book.{empty};
ghost use Rattle.plant_books.specs.Blank.{is_blank};
ghost use Rattle.plant_books.specs.Sane.{model_of, Sane};

use crate::contents::Contents;
use change::names::Plant;

impl<'a> Contents<'a> {
    // Nothing came yet.
    pub fn is_blank(&self) -> bool
        ensures { result ≡ is_blank (model_of self.now) }
    {
        self.shelf.len() == 0 && self.waiting.len() == 0 && self.highest == 0
    }

    // It is the plant's from now on; false, and nothing is altered, where something came already.
    pub fn assign(&mut self, plant: Plant) -> bool
        requires { Sane self.old }
        ensures sane { Sane self.new }
        ensures answer { result ≡ is_blank (model_of self.old) }
        ensures book { model_of self.new ≡ (if result then empty plant.number else model_of self.old) }
    {
        if !self.is_blank() {
            return false;
        }
        self.plant = plant;
        true
    }
}
