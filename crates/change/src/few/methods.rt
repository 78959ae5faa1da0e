// Filling a `Few` and looking at it.
ghost use Rattle.std.specs.Prelude.{◌≡◌, ◌+◌, [], ◌∷◌, ◌++◌, if◌then◌else◌, nat_lt};
ghost use Rattle.change.specs.Few.{listed};

use crate::few::Few;

impl<T: Copy, const N: usize> Few<T, N> {
    // None yet; `blank` fills the places that are not in use.
    pub fn new(blank: T) -> Self
        ensures items { listed result ≡ [] }
        ensures count { result.count ≡ 0 }
    {
        Few {
            items: [blank; N],
            count: 0,
        }
    }

    // One value more; false, and nothing is altered, where there are N.
    pub fn push(&mut self, value: T) -> bool
        ensures test { result ≡ nat_lt self.old.count N }
        ensures items { listed self.new ≡ (if result then listed self.old ++ value ∷ [] else listed self.old) }
        ensures count { self.new.count ≡ (if result then self.old.count + 1 else self.old.count) }
    {
        let at = self.count;
        if at >= N {
            return false;
        }
        self.items[at] = value;
        self.count = at + 1;
        true
    }

    pub fn as_slice(&self) -> &[T]
        ensures { result.now ≡ listed self.now }
    {
        let all = &self.items[..];
        let count = self.count.min(all.len());
        &all[0..count]
    }
}
