// The numbers of lines, slot by slot: finding a line's slot and a free one, counting, and giving slots to lines.
ghost use Rattle.std.specs.List.{position};
ghost use Rattle.std.specs.Prelude.{◌≡◌, ◌+◌, ◌^◌, ◌<◌, ◌≤◌, length, drop, Decides, ◌==◌, slice_index};
ghost use Rattle.lines.specs.Numbers.{no_line, free_in, AreFree, Finds, marked};
ghost use Rattle.lines.specs.Puts.{Given};

// The number of no line, which marks a free slot.
pub const NO_LINE: u32 = 2;

// The first slot that lines come into and go from: those before it are the start's and the end's.
pub const FIRST_SLOT: usize = 2;

// The line is one of so many from `first` on.
pub fn is_given(line: u32, first: u32, count: usize) -> bool
    ensures { Decides result (Given first count line) }
{
    line >= first && ((line - first) as usize) < count
}

// The slot of a line.
pub fn position(numbers: &[u32], line: u32) -> Option<usize>
    ensures { Finds numbers.now line result }
{
    if line == NO_LINE {
        return None;
    }
    numbers.iter().position(|n| *n == line)
}

// The first free slot.
fn first_free(numbers: &[u32]) -> Option<usize>
    ensures { result ≡ position (λ n. n == no_line) numbers.now }
{
    numbers.iter().position(|n| *n == NO_LINE)
}

// The first free slot at or behind `from`.
pub fn next_free(numbers: &[u32], from: usize) -> usize
    requires { 0 < free_in (drop from numbers.now) }
    ensures behind { from ≤ result }
    ensures within { result < length numbers.now }
    ensures free { slice_index numbers.now result ≡ no_line }
    ensures rest { free_in (drop from numbers.now) ≡ 1 + free_in (drop (result + 1) numbers.now) }
{
    from + first_free(&numbers[from..]).unwrap()
}

pub fn count_free(numbers: &[u32]) -> usize
    ensures { result ≡ free_in numbers.now }
{
    numbers.iter().map(|n| usize::from(*n == NO_LINE)).sum()
}

// Gives these slots to the lines `first`, `first + 1` and so on.
pub fn mark(numbers: &mut [u32], first: u32, slots: &[usize])
    requires free { AreFree numbers.old slots.now }
    requires fits { first + length slots.now ≤ 2 ^ 32 }
    ensures { numbers.new ≡ marked numbers.old first slots.now }
{
    for (k, slot) in slots.iter().enumerate() {
        numbers[*slot] = first + k as u32;
    }
}
