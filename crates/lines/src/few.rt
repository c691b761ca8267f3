// At most N items, in an array of N places.
ghost use Rattle.std.specs.Prelude.{◌≡◌, ◌≤◌, [], ◌∷◌, ◌++◌, take, MatchOption};

// The items are the first `count`; where that were above N, they would be all of them.
#[derive(Clone, Copy)]
pub struct Few<T, const N: usize> {
    items: [T; N],
    count: usize,
}

impl<T: Copy, const N: usize> Few<T, N> {
    // No items; `filler` stands in the free places.
    pub fn none(filler: T) -> Self
        ensures { take result.count result.items ≡ [] }
    {
        Few {
            items: [filler; N],
            count: 0,
        }
    }

    pub fn as_slice(&self) -> &[T]
        ensures { result.now ≡ take self.now.count self.now.items }
    {
        &self.items[..self.count.min(N)]
    }

    // One more, or none where all places are taken.
    pub fn with(self, item: T) -> Option<Self>
        ensures { MatchOption result (N ≤ self.count) (λ more. take more.count more.items ≡ take self.count self.items ++ item ∷ []) }
    {
        if N <= self.count {
            return None;
        }
        let mut items = self.items;
        items[self.count] = item;
        Some(Few {
            items,
            count: self.count + 1,
        })
    }
}
