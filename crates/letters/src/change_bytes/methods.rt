// From a view of a change to its bytes, and back.
ghost use Rattle.std.specs.Prelude.{◌≡◌};
ghost use Rattle.change.specs.Viewed.{viewed};
ghost use Rattle.letters.specs.LetterRead.{change_in};

use crate::change_bytes::ChangeBytes;
use change::view::ChangeView;

impl<'a> ChangeBytes<'a> {
    pub fn of(view: &ChangeView<'a>) -> ChangeBytes<'a>
        ensures { change_in result ≡ viewed view.now }
    {
        ChangeBytes {
            bytes: view.bytes(),
        }
    }

    // The change, read again; that can't fail.
    pub fn view(&self) -> ChangeView<'a>
        ensures { viewed result ≡ change_in self.now }
    {
        ChangeView::read_whole(self.bytes).unwrap()
    }
}
