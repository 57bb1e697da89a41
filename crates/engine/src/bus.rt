// A bus event works on the caller's own record: protocol.rs `reset`, `host_upgrading` and
// `reset_requested`, each thin over a by-value function of api.rt. The record is copied whole, so nothing
// here looks into a field.
ghost use Rattle.std.specs.Prelude.{◌≡◌};
ghost use Rattle.engine.specs.Api.{cleared};

use crate::types::Engine;

impl Engine {
    /// Request, reply, update record and stream are emptied where they stand; flags, scratch and storage stay.
    pub fn reset(&mut self)
        ensures { self.new ≡ cleared self.old }
    {
        *self = self.cleared();
    }

    /// Has the host started an upgrade. The record is left as it was.
    pub fn host_upgrading(&mut self) -> bool
        ensures { (result ≡ self.old.upgrading) × (self.new ≡ self.old) }
    {
        self.is_upgrading()
    }

    /// Did the host ask for a reset. The record is left as it was.
    pub fn reset_requested(&mut self) -> bool
        ensures { (result ≡ self.old.asked) × (self.new ≡ self.old) }
    {
        self.is_asked()
    }
}
