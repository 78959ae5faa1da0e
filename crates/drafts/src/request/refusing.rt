// Why a request is refused: by the lowest number that holds.
ghost use Rattle.std.specs.Prelude.{◌≡◌, length, MatchResult};
ghost use Rattle.history.specs.Book.{Book};
ghost use Rattle.making.specs.Making.{refusal};
ghost use Rattle.making.specs.Sorted.{sorted};
ghost use Rattle.shelf.specs.Sane.{changes};
ghost use Rattle.drafts.specs.Asked.{asked_by};
ghost use Rattle.drafts.specs.Named.{needs_named};
ghost use Rattle.drafts.specs.Refusing.{within_limits, Next};

use crate::request::Request;
use crate::request::upcoming::Upcoming;
use change::names::Name;
use change::refusal::Refusal;
use change::span::ADD_LIMIT;
use change::view::{KILL_LIMIT, NEED_LIMIT};
use shelf::Shelf;

impl Request {
    // A change with so many needs and kills passes no limit, and there is room for its lines.
    fn is_within_limits(&self, shelf: &Shelf<'_>, needs: usize, kills: usize) -> bool
        ensures { result ≡ within_limits (changes shelf.now) needs (length (asked_by self.now).adds) kills }
    {
        let adds = self.adds();
        needs <= NEED_LIMIT && adds <= ADD_LIMIT && kills <= KILL_LIMIT && shelf.has_room_for(adds)
    }

    // This change, with so many needs and kills, is made of the request, or why it isn't; a request is well written, and its name is new.
    pub fn may_be_made(
        &self,
        upcoming: &Upcoming<'_, '_>,
        needs: usize,
        kills: usize,
    ) -> Result<(), Refusal>
        requires needs { needs ≡ length (needs_named upcoming.now.name.0 (asked_by self.now)) }
        requires kills { kills ≡ length (sorted (asked_by self.now).kills) }
        ensures { (B : Book) → Next B (changes upcoming.now.shelf.now) upcoming.now.name.0 → MatchResult result (λ _. refusal B (asked_by self.now) ≡ None) (λ e. refusal B (asked_by self.now) ≡ Some e) }
    {
        if !self.keeps_to_sheet(upcoming.shelf) {
            return Err(Refusal::Unrelated);
        }
        if !self.is_in_order(upcoming) {
            return Err(Refusal::Unordered);
        }
        if !self.is_within_limits(upcoming.shelf, needs, kills) {
            return Err(Refusal::Full);
        }
        if !self.is_known(upcoming) {
            return Err(Refusal::Missing);
        }
        if upcoming.name > Name::HIGHEST {
            return Err(Refusal::Exhausted);
        }
        Ok(())
    }
}
