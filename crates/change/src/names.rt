// The numbers by which plants, sheets, changes and lines are known.
ghost use Rattle.std.specs.Prelude.{◌≡◌, ◌+◌, ◌<◌, ◌≤◌, is_some, IfSome, nat_le, nat_lt};
ghost use Rattle.change.specs.Model.{named, count_of, plant_of, line_of, bringer};
ghost use Rattle.change.specs.WellFormed.{highest_name};

// A plant, 0 to 15.
#[derive(Clone, Copy, Debug, PartialEq, Eq, PartialOrd, Ord)]
pub struct Plant {
    number: u8,
    ghost below: { number < 16 },
}

impl Plant {
    // The plant of this number, where there is one.
    pub fn new(number: u8) -> Option<Plant>
        ensures some { is_some result ≡ nat_lt number 16 }
        ensures value { IfSome result (λ p. p.number ≡ number) }
    {
        if number < 16 {
            Some(Plant { number })
        } else {
            None
        }
    }

    pub fn number(self) -> u8
        ensures is { result ≡ self.number }
        ensures below { result < 16 }
    {
        self.number
    }
}

// A change's name: its plant's count of changes, from 1, times 16, and the plant.
#[derive(Clone, Copy, Debug, PartialEq, Eq, PartialOrd, Ord)]
pub struct Name(pub u32);

impl Name {
    pub const LOWEST: Name = Name(16);

    // So that the number of each line of the change fits 32 bits.
    pub const HIGHEST: Name = Name(67_108_863);

    // The name of a plant's change of this count, up to the one behind the last.
    pub fn of(plant: Plant, count: u32) -> Name
        requires { count ≤ count_of highest_name + 1 }
        ensures { result.0 ≡ named count plant.number }
    {
        Name(count * 16 + u32::from(plant.number()))
    }

    pub fn count(self) -> u32
        ensures { result ≡ count_of self.0 }
    {
        self.0 / 16
    }

    pub fn plant(self) -> Plant
        ensures { result.number ≡ plant_of self.0 }
    {
        let number = (self.0 % 16) as u8;
        Plant { number }
    }

    // The line that the add at a place of the change brings.
    pub fn line(self, place: usize) -> Line
        requires name { self.0 ≤ highest_name }
        requires place { place < 64 }
        ensures { result.0 ≡ line_of self.0 place }
    {
        Line(self.0 * 64 + place as u32)
    }
}

// A line's number: the name of the change that adds it times 64, and the add's place in the change. 0 and 1 are the start and the end of every sheet.
#[derive(Clone, Copy, Debug, PartialEq, Eq, PartialOrd, Ord)]
pub struct Line(pub u32);

impl Line {
    pub const START: Line = Line(0);

    pub const END: Line = Line(1);

    // Neither the start nor the end of a sheet: a change adds it.
    pub fn is_added(self) -> bool
        ensures { result ≡ nat_le 2 self.0 }
    {
        self.0 >= 2
    }

    // The name of the change that adds it.
    pub fn bringer(self) -> Name
        ensures { result.0 ≡ bringer self.0 }
    {
        Name(self.0 / 64)
    }
}

// A sheet of a manual, 0 to 255.
#[derive(Clone, Copy, Debug, PartialEq, Eq, PartialOrd, Ord)]
pub struct Sheet(pub u8);
