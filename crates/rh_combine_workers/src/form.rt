//! The bytes of numbers, as they are written.

ghost use Rattle.std.specs.Prelude.{◌≡◌, ◌++◌, OnOk};
ghost use Rattle.rh_combine_workers.specs.Spelled.{spelled};

use rh_combine::Form;
use rh_key_files::append_keys;
use rh_numbers::append_numbers;
use std::alloc::AllocError;

/// Puts the numbers behind the bytes, in their form.
pub(crate) fn spell(bytes: &mut Vec<u8>, form: Form, numbers: &[u64]) -> Result<(), AllocError>
    ensures { OnOk result (bytes.new.items ≡ bytes.old.items ++ spelled form numbers.now) }
{
    match form {
        Form::Lines => append_numbers(bytes, numbers),
        Form::Count => Ok(()),
        Form::Packed => append_keys(bytes, numbers),
    }
}
