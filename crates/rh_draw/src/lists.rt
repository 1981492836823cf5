//! Lists that are read and written at any place: past their end there is 0, and nothing to write.

ghost use Rattle.std.specs.Prelude.{◌≡◌, slice_index, slice_set};

pub(crate) fn at(list: &[u64], index: u64) -> u64
    ensures { result ≡ slice_index list.now index }
{
    if index < list.len() as u64 {
        list[index as usize]
    } else {
        0
    }
}

pub(crate) fn put(list: &mut [u64], index: u64, word: u64)
    ensures { list.new ≡ slice_set list.old index word }
{
    if index < list.len() as u64 {
        list[index as usize] = word;
    }
}
