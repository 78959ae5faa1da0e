// The seats: each has a desk, and plants take them in the order in which the script names them.
ghost use Rattle.std.specs.Prelude.{◌≡◌, ◌<◌, length, position, count_by, IfSome, if◌then◌else◌, is_none};
ghost use Rattle.rehearse.specs.Seats.{is_plants, is_nobodys, place_of, first_free, wants, fit_both, Given, TookSeat};

use change::names::Plant;
use desk::Desk;

#[derive(Drop)]
pub struct Seat<'a> {
    // nobody's until a line of the script names a plant for it
    pub plant: Option<Plant>,
    pub desk: Desk<'a>,
}

impl<'a> Seat<'a> {
    fn is_of(&self, plant: Plant) -> bool
        ensures { result ≡ is_plants self.now.plant plant.number }
    {
        self.plant == Some(plant)
    }

    fn is_free(&self) -> bool
        ensures { result ≡ is_nobodys self.now.plant }
    {
        self.plant.is_none()
    }

    fn give(&mut self, plant: Plant)
        ensures { Given plant.number self.old self.new }
    {
        self.plant = Some(plant);
        self.desk.book.assign(plant.number());
    }
}

fn place_of(seats: &[Seat<'_>], plant: Plant) -> Option<usize>
    ensures { result ≡ place_of plant.number seats.now }
{
    seats.iter().position(|seat| seat.is_of(plant))
}

fn first_free(seats: &[Seat<'_>]) -> Option<usize>
    ensures { result ≡ first_free seats.now }
{
    seats.iter().position(|seat| seat.is_free())
}

fn count_free(seats: &[Seat<'_>]) -> usize
    ensures { result ≡ count_by (λ s. is_nobodys s.plant) seats.now }
{
    seats.iter().filter(|seat| seat.is_free()).count()
}

// One more, if the plant has no seat yet.
fn wants(seats: &[Seat<'_>], plant: Plant) -> usize
    ensures { result ≡ wants plant.number seats.now }
{
    usize::from(place_of(seats, plant).is_none())
}

// Each of two plants has a seat, or there is a free one for it.
pub fn fit_both(seats: &[Seat<'_>], one: Plant, other: Plant) -> bool
    ensures { result ≡ fit_both one.number other.number seats.now }
{
    let others = if one == other { 0 } else { wants(seats, other) };
    wants(seats, one) + others <= count_free(seats)
}

// The place of a plant, which takes the first free seat where it has none yet.
pub fn take_seat(seats: &mut [Seat<'_>], plant: Plant) -> Option<usize>
    ensures took { TookSeat plant.number seats.old seats.new result }
    ensures within { IfSome result (λ k. k < length seats.new) }
{
    if let Some(place) = place_of(seats, plant) {
        return Some(place);
    }
    let place = first_free(seats)?;
    let seat = &mut seats[place];
    seat.give(plant);
    Some(place)
}
