//! Texts that are kept where they are in form.

ghost use Rattle.std.specs.Prelude.{◌≡◌, string_bytes, IfOk, IfErr, true, false};
ghost use Rattle.registry_names.specs.Faults.{IsMemoryOr, IsRefused};

use crate::refusal::Refusal;
use crate::stop::Stop;
use std::alloc::Global;

// A copy of a text that is in form, and the refusal of one that isn't.
pub(crate) fn kept_in_form(
    alloc: Global,
    text: &str,
    is_form: bool,
    refusal: Refusal,
) -> Result<String, Stop>
    ensures ok { IfOk result (λ t. (string_bytes t ≡ text.now) × (is_form ≡ true)) }
    ensures err { IfErr result (IsMemoryOr refusal (is_form ≡ false)) }
    ensures refused { is_form ≡ false → IsRefused result refusal }
{
    if !is_form {
        return Err(Stop::Refused(refusal));
    }
    Ok(String::from_str(alloc, text)?)
}
