use super::*;

// The space of a volume as a plain list of codes with two cursors.
#[derive(Drop)]
struct Plain {
    codes: Vec<Code>,
    small: Option<(usize, u64)>,
    middle: Option<(usize, u64)>,
}

impl Plain {
    fn fresh(alloc: Global, zones: usize) -> Option<Plain> {
        let mut codes = Vec::new(alloc);
        for _ in 0..zones {
            for chunk in 0..2048u32 {
                let code = if chunk < 256 {
                    Code::Reserved
                } else {
                    Code::Free
                };
                codes.push(code).ok()?;
            }
        }
        Some(Plain {
            codes,
            small: None,
            middle: None,
        })
    }

    fn free(&self) -> u64 {
        let mut free = 0u64;
        for code in &self.codes {
            if *code == Code::Free {
                free = free.wrapping_add(1);
            }
        }
        free
    }

    fn set_used(&mut self, chunk: usize) -> Option<()> {
        *self.codes.get_mut(chunk)? = Code::Used;
        Some(())
    }

    fn lowest_free(&self) -> Option<usize> {
        for (chunk, code) in self.codes.iter().enumerate() {
            if *code == Code::Free {
                return Some(chunk);
            }
        }
        None
    }

    fn take(&mut self, size: Size) -> Option<u64> {
        let cursor = match size {
            Size::Small => self.small,
            Size::Middle => self.middle,
            Size::Whole => None,
        };
        let (mut chunk, mut used) = cursor.unwrap_or((0, 16384));
        if used == 16384 {
            chunk = self.lowest_free()?;
            used = 0;
        }
        self.set_used(chunk)?;
        match size {
            Size::Small => self.small = Some((chunk, used.wrapping_add(1024))),
            Size::Middle => self.middle = Some((chunk, used.wrapping_add(4096))),
            Size::Whole => {}
        }
        Some((chunk as u64).wrapping_mul(16384).wrapping_add(used))
    }

    fn forget_free(&mut self, cursor: Option<(usize, u64)>) -> Option<(usize, u64)> {
        let (chunk, _used) = cursor?;
        if *self.codes.get(chunk)? == Code::Free {
            return None;
        }
        cursor
    }

    // A pass has seen each chunk of the segment whose number is a multiple of `every`.
    fn apply(&mut self, segment: usize, every: usize) -> (u32, u32) {
        let mut staged = 0u32;
        let mut freed = 0u32;
        for (chunk, code) in self.codes.iter_mut().enumerate() {
            if chunk / 256 == segment {
                let seen = every > 0 && (chunk % 256) % every == 0;
                if *code == Code::Staged && seen {
                    *code = Code::Used;
                } else if *code == Code::Staged {
                    *code = Code::Free;
                    freed = freed.wrapping_add(1);
                } else if *code == Code::Used && !seen {
                    *code = Code::Staged;
                    staged = staged.wrapping_add(1);
                }
            }
        }
        self.small = self.forget_free(self.small);
        self.middle = self.forget_free(self.middle);
        (staged, freed)
    }

    fn adopt(&mut self, chunk: usize) -> Option<bool> {
        let code = *self.codes.get(chunk)?;
        if code == Code::Free || code == Code::Reserved {
            return Some(false);
        }
        self.set_used(chunk)?;
        Some(true)
    }
}

// What is done to both.
#[derive(Clone, Copy)]
enum Step {
    Take(Size),
    Apply { segment: u32, every: u32 },
    Adopt { chunk: u32 },
}

// A block of 1 KiB at a chunk's start is adopted, where it lies in the volume.
fn adopt(map: &mut Freemap, chunk: u32) -> Option<bool> {
    if chunk >= map.geometry().chunks() {
        return None;
    }
    Some(map.adopt(Block {
        place: 16384 * chunk as u64,
        radix: 10,
    }))
}

fn seen_each(every: u32) -> Seen {
    let mut seen = Seen::new();
    for c in 0..256u32 {
        if every > 0 && c % every == 0 {
            seen.mark(c as u8);
        }
    }
    seen
}

// Whether one step does the same to both.
fn same_step(map: &mut Freemap, plain: &mut Plain, step: Step) -> bool {
    let same = match step {
        Step::Take(size) => take(map, size) == plain.take(size),
        Step::Apply { segment, every } => {
            apply(map, segment, &seen_each(every))
                == Some(plain.apply(segment as usize, every as usize))
        }
        Step::Adopt { chunk } => adopt(map, chunk) == plain.adopt(chunk as usize),
    };
    same && map.free() == plain.free()
}

// Whether all codes are the same.
fn same_codes(map: &Freemap, plain: &Plain) -> bool {
    for chunk in 0..map.geometry().chunks() {
        if code(map, chunk) != plain.codes.get(chunk as usize).copied() {
            return false;
        }
    }
    true
}

#[test]
fn blocks_go_where_a_plain_list_of_codes_says(rt: HostRuntime) -> Result<(), Fail> {
    let alloc = rt.alloc();
    let mut map = fresh(alloc, 4).ok_or("memory")?;
    let mut plain = Plain::fresh(alloc, 4).ok_or("memory")?;
    let steps = [
        (Step::Take(Size::Small), 17),
        (Step::Take(Size::Middle), 5),
        (Step::Take(Size::Whole), 3),
        (Step::Take(Size::Small), 16),
        (Step::Take(Size::Middle), 4),
        (Step::Adopt { chunk: 255 }, 1),
        (Step::Adopt { chunk: 264 }, 1),
        (
            Step::Apply {
                segment: 1,
                every: 3,
            },
            1,
        ),
        (Step::Adopt { chunk: 258 }, 1),
        (Step::Take(Size::Small), 2),
        (
            Step::Apply {
                segment: 1,
                every: 4,
            },
            1,
        ),
        (Step::Take(Size::Whole), 2),
        (Step::Take(Size::Middle), 9),
        (Step::Take(Size::Small), 33),
        (
            Step::Apply {
                segment: 1,
                every: 0,
            },
            2,
        ),
        (Step::Take(Size::Middle), 1),
        (Step::Take(Size::Whole), 300),
        (Step::Take(Size::Small), 1),
        (
            Step::Apply {
                segment: 2,
                every: 5,
            },
            2,
        ),
        (Step::Take(Size::Whole), 7200),
        (Step::Take(Size::Small), 20),
        (Step::Take(Size::Middle), 5),
    ];
    for (step, times) in steps {
        for _ in 0..times {
            assert!(rt; same_step(&mut map, &mut plain, step));
        }
        assert!(rt; same_codes(&map, &plain));
    }
    assert_eq!(rt; map.free(), 0);
    Ok(())
}
