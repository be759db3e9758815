// What a call left of the lent records and plan bytes: a digest of the plan, and how many records have a value in all their numbers.
ghost use Rattle.std.specs.Prelude.{◌≡◌};
ghost use Rattle.std.specs.List.{fold};
ghost use Rattle.model.specs.Lists.{all};
ghost use Rattle.lent.specs.Counts.{digested, filled_with, count_of};

use table::Record;

// A figure for many bytes, 0 for none.
pub fn digest(bytes: &[u8]) -> u64
    ensures { result ≡ fold digested 0 bytes.now }
{
    let mut figure = 0;
    for byte in bytes {
        figure = (257 * figure + u64::from(*byte) + 1) % 4294967291;
    }
    figure
}

// Whether all numbers of some are a value.
fn all_are<T: PartialEq>(numbers: &[T], value: &T) -> bool
    ensures { result ≡ all (T.eq value.now) numbers.now }
{
    numbers.iter().all(|x| *value == *x)
}

// Whether all numbers of a record are a value.
fn record_is(y: &Record, value: u8) -> bool
    ensures { result ≡ filled_with value y.now }
{
    let number = u16::from(value);
    let singles = [
        u16::from(y.at.old),
        u16::from(y.at.new),
        y.slot,
        y.order,
        y.mark,
        y.number,
        y.present.straight,
        y.present.client,
        y.present.service,
    ];
    all_are(&y.at.buffer.counts, &value)
        && u32::from(value) == y.packed
        && all_are(&singles, &number)
        && all_are(&y.last, &number)
        && all_are(&y.next, &number)
        && all_are(&y.before, &number)
}

// How many records have a value in all their numbers.
pub fn count_records(work: &[Record], value: u8) -> usize
    ensures { result ≡ count_of value work.now }
{
    work.iter().filter(|y| record_is(y, value)).count()
}
