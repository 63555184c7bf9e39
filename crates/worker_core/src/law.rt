// Laws of the core.
ghost use Rattle.worker_core.specs.CoreLaws.{CoreLaws};
ghost use Rattle.worker_core.specs.inner.Known.{Known};

use journals::{laws, sending_laws, stamp_laws};

// The laws of journals that the core rests on.
fn known()
    ensures { Known }
{
    laws();
    sending_laws();
    stamp_laws();
}

/// What follows from the definitions.
pub fn core_laws()
    ensures { CoreLaws }
{
    known();
}
