ghost use Rattle.std.specs.Prelude.{◌≡◌, ◌++◌, OnOk};
ghost use Rattle.oc_deeds.specs.Unfit.{unfit_line, unfit_text};

use oc_base::{MAX_SCHEDULE_BYTES, Memory, put, put_with_number};
use oc_config::{ConfigFault, ConfigKey, put_fault};

/// Why a configuration that was read again is not the one that a node goes by.
#[derive(Clone, Copy, Debug)]
pub enum Unfit {
    /// It is longer than a configuration may be.
    Long,
    /// The text has this fault.
    Fault(ConfigFault),
    /// The node has no address in it.
    Stranger,
    /// This key differs, and its change needs a new start of the node.
    Restart(ConfigKey),
}

/// Puts the line that tells why a configuration is not gone by. `Memory` where it runs out.
pub fn put_unfit_line(out: &mut Vec<u8>, why: &Unfit) -> Result<(), Memory>
    ensures { OnOk result (out.new.items ≡ out.old.items ++ unfit_line why.now) }
{
    put(out, b"overcast: ")?;
    put_unfit(out, why)?;
    put(out, b"\n")
}

fn put_unfit(out: &mut Vec<u8>, why: &Unfit) -> Result<(), Memory>
    ensures { OnOk result (out.new.items ≡ out.old.items ++ unfit_text why.now) }
{
    match why {
        Unfit::Long => put_with_number(out, b"limit bytes ", MAX_SCHEDULE_BYTES as u64),
        Unfit::Fault(fault) => {
            put(out, b"config: ")?;
            put_fault(out, fault)
        }
        Unfit::Stranger => {
            put(out, b"config: value ")?;
            put(out, ConfigKey::Id.word().as_bytes())
        }
        Unfit::Restart(key) => {
            put(out, b"config: restart ")?;
            put(out, key.word().as_bytes())
        }
    }
}
