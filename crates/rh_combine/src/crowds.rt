//! Keys that crowd about few homes.
//!
//! A Robin Hood table of keys with one home is a list: each search goes through half of them.
//! Nothing but time depends on what is said here of such keys.

ghost use Rattle.std.specs.Prelude.{◌<◌, ◌≤◌};
ghost use Rattle.rh_combine.specs.declared.crowds.TheConstants.{SAMPLE};

use rh_layout::home;

/// So many keys are looked at, or fewer.
const SAMPLE: usize = 512;

/// A table has 2 to the power of this regions of consecutive homes, whatever its size.
const REGION_BITS: u32 = 6;

const REGIONS: usize = 1 << REGION_BITS;

/// More keys of the sample than this in one region are a crowd. Of keys as they come a region has
/// eight.
const CROWD: u32 = 32;

/// Whether some of the keys, of which the lists have so many, crowd in a region of homes. Copies of
/// one key are no crowd: a table has it once.
pub(crate) fn is_crowded(lists: &[&[u64]], many: usize) -> bool {
    let mut sample = [0; SAMPLE];
    let count = take_sample(lists, many / SAMPLE + 1, &mut sample);
    let keys = &mut sample[..count];
    if !have_crowd(keys) {
        return false;
    }
    // Once they are sorted, copies stand side by side, wherever they stood.
    keys.sort_unstable();
    have_crowd(keys)
}

/// Takes each key in so many steps, over all lists as if one stood behind the other, as long as
/// there is room. It answers how many these are.
fn take_sample(lists: &[&[u64]], step: usize, sample: &mut [u64; SAMPLE]) -> usize
    requires { 0 < step }
    ensures { result ≤ SAMPLE }
{
    let mut count = 0;
    let mut before = 0usize;
    for keys in lists {
        count = take_some(keys, (step - before % step) % step, step, sample, count);
        before = before.saturating_add(keys.len());
    }
    count
}

/// The same of one list, from this place on. So many keys were taken before.
fn take_some(
    keys: &[u64],
    from: usize,
    step: usize,
    sample: &mut [u64; SAMPLE],
    before: usize,
) -> usize
    requires step { 0 < step }
    requires before { before ≤ SAMPLE }
    ensures { result ≤ SAMPLE }
{
    let mut count = before;
    for key in keys[from.min(keys.len())..].iter().step_by(step) {
        if count < SAMPLE {
            sample[count] = *key;
            count += 1;
        }
    }
    count
}

/// Whether so many of the keys crowd in a region of homes, where of copies that stand side by side
/// one counts.
fn have_crowd(keys: &[u64]) -> bool {
    let mut regions = [0u32; REGIONS];
    let mut last = None;
    for key in keys {
        if last != Some(*key) {
            note(&mut regions, *key);
        }
        last = Some(*key);
    }
    regions.iter().any(|count| *count > CROWD)
}

/// Counts a key in the region of its home.
fn note(regions: &mut [u32; REGIONS], key: u64) {
    let region = home(REGION_BITS, key);
    regions[region] = regions[region].saturating_add(1);
}
