ghost use Rattle.std.specs.Prelude.{IfOk};
ghost use Rattle.oc_base.specs.Names.{IsGroupName};

use crate::fault::Fault;
use oc_base::{GroupName, Shelf};

/// The group with this name.
pub fn group_in(text: &str) -> Result<GroupName, Fault>
    ensures { IfOk result (λ group. IsGroupName group) }
{
    match GroupName::parse(text.as_bytes()) {
        Ok(group) => Ok(group),
        Err(_) => Err(Fault::Field),
    }
}

/// Appends each group with its length, and `!` if it is sealed.
pub fn put_shelf(out: &mut String, lines: &[Shelf]) -> Result<(), Fault> {
    for line in lines {
        let mark = if line.sealed { "!" } else { "" };
        write!(out, "{}@{}{mark} ", line.group, line.held)?;
    }
    Ok(())
}
