//! The JSON value that a text spells.

ghost use Rattle.std.specs.Prelude.{◌≡◌, ◌≤◌, Some, None, IfOk, IfErr, IsUtf8};
ghost use Rattle.serde_json.specs.Data.{depth};
ghost use Rattle.serde_json.specs.Read.{read, max_depth};
ghost use Rattle.serde_json.specs.View.{view};
ghost use Rattle.registry_publish.specs.Stops.{StopsReading};

use registry_json::ReadError;
use registry_names::{Fault, Refusal, Stop};
use serde_json::Value;
use std::alloc::Global;

pub(crate) const BAD_BODY: Stop = Stop::Refused(Refusal::BadBody);

pub(crate) fn document(alloc: Global, bytes: &[u8]) -> Result<Value, Stop>
    ensures ok { IfOk result (λ v. IsUtf8 bytes.now × (read bytes.now ≡ Some (view v))) }
    ensures nests { IfOk result (λ v. depth (view v) ≤ max_depth) }
    ensures err { IfErr result (StopsReading (IsUtf8 bytes.now → read bytes.now ≡ None)) }
{
    match registry_json::from_slice(alloc, bytes) {
        Ok(value) => Ok(value),
        Err(ReadError::NotJson) => Err(BAD_BODY),
        Err(ReadError::Memory) => Err(Stop::Fault(Fault::Memory)),
    }
}
