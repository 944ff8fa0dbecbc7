//! Services that send packuments as they are made.

ghost use Rattle.std.specs.Prelude.{◌≡◌, ◌≢◌, true};
ghost use Rattle.registry_packument.specs.Sendings.{failures_after};
ghost use Rattle.registry_packument.specs.declared.opener.Sent.TheVariants.{WriteFault};
ghost use Rattle.registry_service.specs.Sendings.{IsPackument, Sends};

use crate::turning::Service;
use registry_names::ByteOut;
use registry_packument::{Opener, Sent};
use registry_rules::Request;
use std::alloc::Global;

/// A service that can send a packument as it is made, where [`Service::answer`] makes one text.
pub trait PackumentService: Service {
    /// Answers a request for a packument, as [`Service::answer`] does, and writes the packument:
    /// the opening for one of its length, and then its text.
    ///
    /// Nothing is written of a refusal, nor of a fault that comes before the first byte. After a
    /// fault that comes later, what was written is a prefix, and no other byte of it may follow.
    fn send_packument<W: ByteOut, O: Opener>(
        &mut self,
        alloc: Global,
        request: &Request,
        writer: &mut W,
        opener: &O,
    ) -> Sent
        requires { IsPackument request.now.what }
        ensures sends { Sends Self.answers (O.opens opener.now) self.old request.now result
            self.new (W.bytes writer.old) (W.bytes writer.new) (W.is_unknown writer.new) }

        // Only a failed write is counted, and only it makes the bytes unknown, for good.
        ensures counted { W.failures writer.new ≡ failures_after result (W.failures writer.old) }
        ensures told { result ≢ WriteFault → W.is_unknown writer.new ≡ W.is_unknown writer.old }
        ensures unknown { W.is_unknown writer.old ≡ true → W.is_unknown writer.new ≡ true };
}
