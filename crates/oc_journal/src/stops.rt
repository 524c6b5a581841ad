ghost use Rattle.std.specs.Prelude.{◌≡◌};
ghost use Rattle.oc_base.specs.Stops.{is_kept_new};

/// Whether a frame is kept, if its append stopped after `calls` of its four calls of the disk and a crash then leaves
/// the byte `image` in every unsynced byte, the gate among them.
pub fn is_kept_new(calls: u8, image: u8) -> bool
    ensures { result ≡ is_kept_new calls image }
{
    calls == 4 || (calls == 3 && image == 1)
}
