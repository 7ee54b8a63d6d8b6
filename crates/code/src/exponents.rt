// The exponent set of a code: marks on the numbers below the order of the root.
ghost use Rattle.std.specs.Prelude.{◌≡◌, ℕ, ◌+◌, ◌<◌, ◌≤◌, Bool, T, ◌++◌, length, take, drop, filter};
ghost use Rattle.std.specs.List.{range_with_len};
ghost use Rattle.code.specs.Marks.{marked, marked_below, step, Within, Closed, MarkedRun};

// At least the order of any field's root.
const MOST_ORDER: usize = 1024;

// Marks on the numbers below the order, in memory for the largest: no heap is needed.
#[derive(Drop)]
pub(crate) struct Marks {
    order: u16,
    marks: [bool; MOST_ORDER],
    ghost fits: { order ≤ 1024 },
}

impl Marks {
    // Marks the smallest set that holds `count` exponents from `first` on, modulo `order`, and with each also its product with
    // `factor` modulo `order`.
    pub(crate) fn of_run(order: u16, factor: u16, first: u16, count: u16) -> Marks
        requires order { order ≤ 1024 }
        requires first { first < order }
        requires count { count ≤ 32 }
        ensures order { result.order ≡ order }
        ensures run { MarkedRun order factor first count result.marks }
    {
        let mut all = Marks {
            order,
            marks: [false; MOST_ORDER],
        };
        for i in 0..count {
            all.mark_orbit(factor, (first + i) % order);
        }
        all
    }

    // Marks `start`, that times `factor` modulo the order, and so on up to one that was marked before.
    fn mark_orbit(&mut self, factor: u16, start: u16)
        requires { start < self.old.order }
        ensures order { self.new.order ≡ self.old.order }
        ensures size { length self.new.marks ≡ length self.old.marks }
        ensures kept { Within (marked self.old.marks) (marked self.new.marks) }
        ensures started { T (marked self.new.marks start) }
        ensures closed { Closed (step self.old.order factor) (marked self.old.marks) → Closed (step self.old.order factor) (marked self.new.marks) }
        ensures least { (set : ℕ → Bool) → Closed (step self.old.order factor) set → T (set start) → Within (marked self.old.marks) set → Within (marked self.new.marks) set }
    {
        let mut exponent = start;
        while !self.marks[usize::from(exponent)] {
            self.marks[usize::from(exponent)] = true;
            // narrowed without loss, which is proved
            exponent = (u32::from(exponent) * u32::from(factor) % u32::from(self.order)) as u16;
        }
    }

    // How many numbers are marked: a sum, which looks at several marks at once.
    pub(crate) fn count(&self) -> usize
        ensures few { result ≤ self.now.order }
        ensures value { result ≡ length (marked_below self.now.order self.now.marks) }
    {
        self.marks[..usize::from(self.order)]
            .iter()
            .map(|marked| usize::from(*marked))
            .sum()
    }

    // Writes the lowest marked numbers, as many as are asked for, by their size to the front of the list. Their places are counted:
    // a `zip` with `iter_mut` leaves a proof nothing of what the list ends as.
    pub(crate) fn write(&self, count: usize, list: &mut [u16])
        requires { count ≤ length list.old }
        ensures { length (marked_below self.now.order self.now.marks) ≤ count → take (length (marked_below self.now.order self.now.marks)) list.new ≡ marked_below self.now.order self.now.marks }
    {
        let marked = (0..self.order).filter(|e| self.marks[usize::from(*e)]);
        for (i, number) in marked.take(count).enumerate() {
            list[i] = number;
        }
    }
}
