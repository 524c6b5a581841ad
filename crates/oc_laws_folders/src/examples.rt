ghost use Rattle.oc_laws_folders.specs.Examples.{CopyingInParts};

/// Checks a worked run: a folder of two batches is copied in parts, and the copy crashes in the middle of the second.
pub fn folders_compute()
    ensures { CopyingInParts }
{}
