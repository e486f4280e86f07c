// The fault terms, and the first step up to which they fail.
#![tactic(auto)]

ghost use Rattle.std.specs.Prelude.{◌≡◌, cond};
ghost use Rattle.limits.specs.Limits.{seats_stand};
ghost use Rattle.terms.specs.Search.{by_step, too_close, holds_with, failing_at, first_found};
ghost use Rattle.terms.specs.Terms.{first_failing};

// The first fault g, if any, is by step f.
fn by_step(f: u16, g: Option<u16>) -> bool
    ensures { result ≡ by_step f g }
{
    g.is_some_and(|g| g <= f)
}

// And less than n + 1 slots before it.
fn too_close(n: usize, f: u16, g: Option<u16>) -> bool
    ensures { result ≡ too_close n f g }
{
    g.is_some_and(|g| g <= f && usize::from(f - g) <= n)
}

// Whether the terms hold up to the first fault f of seat p, as far as that fault is concerned: no other seat's is too
// close before it, and two seats at least are sound after it. The seats are gone over once for both.
fn holds_with(faults: &[Option<u16>], p: usize, f: u16) -> bool
    ensures { result ≡ holds_with faults.now p f }
{
    let n = faults.len();
    let mut apart = true;
    let mut sound = 0;
    for q in 0..n {
        let g = faults[q];
        apart &= q == p || !too_close(n, f, g);
        sound += usize::from(!by_step(f, g));
    }
    apart && 2 <= sound
}

// The first fault f of seat p, where there is one and the terms fail with it.
fn failing_at(faults: &[Option<u16>], p: usize, f: Option<u16>) -> Option<u16>
    ensures { result ≡ failing_at faults.now p f }
{
    match f {
        Some(f) if !holds_with(faults, p, f) => Some(f),
        _ => None,
    }
}

// The earliest first fault with which the terms fail.
fn first_found(faults: &[Option<u16>]) -> Option<u16>
    ensures { result ≡ first_found faults.now }
{
    faults
        .iter()
        .enumerate()
        .filter_map(|(p, &f)| failing_at(faults, p, f))
        .min()
}

// The first step before the time up to which the terms fail, and the time where they hold up to each. Where n
// is no number of seats it is the time: of more than 32, no slice of the array could have asked for it.
pub fn first_failing(faults: [Option<u16>; limits::SEATS_MOST], n: usize, time: u16) -> u16
    ensures { result ≡ cond (seats_stand n) (first_failing n faults time) time }
{
    if !(limits::SEATS_LEAST..=limits::SEATS_MOST).contains(&n) {
        return time;
    }
    match first_found(&faults[..n]) {
        Some(found) if found < time => found,
        _ => time,
    }
}
